ghost use Rattle.test_rank.specs.Laws.{OneRanking};

/// Tests have one ranking.
pub fn one_ranking()
    ensures { OneRanking }
{}
