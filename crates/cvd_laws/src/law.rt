ghost use Rattle.cvd_laws.specs.Expressions.{ExpressionsApart, NumbersTold, PiecesApart, TargetsApart};
ghost use Rattle.cvd_text.specs.Laws.{OneText};

/// Two texts of a design are the same.
pub fn a_design_has_one_text()
    ensures { OneText }
{}

/// No expression's spelling is the front of another's, so an expression ends where it does.
pub fn expressions_are_apart()
    ensures { ExpressionsApart }
{}

/// No target's spelling is the front of another's.
pub fn targets_are_apart()
    ensures { TargetsApart }
{}

/// No displayed piece's spelling is the front of another's.
pub fn pieces_are_apart()
    ensures { PiecesApart }
{}

/// What comes next in an expression must be a number, or must not be one, whatever the expression is.
pub fn numbers_are_told()
    ensures { NumbersTold }
{}
