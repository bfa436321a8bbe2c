ghost use Rattle.cvd_text.specs.Laws.{OneDesign};
ghost use Rattle.sim_answer.specs.Laws.{NeverBoth, OneRefusal};

/// A text is that of one design at most, two flaws of it come to one refusal, and where its design flows it has none.
pub fn texts_are_told_one_way()
    ensures design { OneDesign }
    ensures refusal { OneRefusal }
    ensures never { NeverBoth }
{}
