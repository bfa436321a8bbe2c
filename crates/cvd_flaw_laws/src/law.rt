ghost use Rattle.cvd_flaw_laws.specs.Laws.{NeverBoth, OneTold};

/// Two flaws of a text are one, or both are circles of its design.
pub fn a_text_is_told_one_way()
    ensures { OneTold }
{}

/// The text of a design that flows has no flaw.
pub fn a_design_that_flows_has_no_flaw()
    ensures { NeverBoth }
{}
