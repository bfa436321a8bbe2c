ghost use Rattle.cvd_text.specs.Laws.{NoFront, OneDesign, StandsWhereValid};

/// No line of a design's text breaks a condition exactly where the design is valid.
pub fn a_design_is_valid_where_its_lines_stand()
    ensures { StandsWhereValid }
{}

/// Designs with the same text are the same.
pub fn a_text_has_one_design()
    ensures { OneDesign }
{}

/// A design's text ends where it does: with anything behind it, it is no design's.
pub fn no_text_is_the_front_of_another()
    ensures { NoFront }
{}
