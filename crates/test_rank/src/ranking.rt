ghost use Rattle.std.specs.Prelude.{◌≡◌, length};

use cov_types::Rows;
use std::marker::Model;

/// A test's place in a ranking.
#[derive(Clone, Copy, Debug, PartialEq, Eq)]
pub struct RankRow {
    /// The test's number, from 0.
    pub test: u32,
    /// 1 for the test that was chosen last, one more for each before it, and 0 for one that isn't chosen.
    pub rank: u32,
    /// The points that the test adds to those chosen before it, and 0 for one that isn't chosen.
    pub rank_points: u64,
    /// The points that the test covers.
    pub covered: u64,
}

/// The rows of a ranking in printed order, which contracts see as their list.
#[derive(Debug, Drop)]
pub struct Ranking {
    rows: Rows<RankRow>,
}

impl Model for Ranking {
    ghost use Rattle.std.specs.Prelude.{List};
    ghost use Rattle.test_rank.specs.declared.ranking.RankRow.{RankRow};

    ghost Value = { List RankRow };

    ghost view = { λ ranking. ranking.rows };
}

impl Ranking {
    pub(crate) fn new(rows: Rows<RankRow>) -> Ranking
        ensures { result ≡ rows }
    {
        Ranking { rows }
    }

    /// The rows.
    pub fn rows(&self) -> &[RankRow]
        ensures { result.now ≡ self.now }
    {
        self.rows.as_slice()
    }
}
