ghost use Rattle.std.specs.Prelude.{◌≡◌, ℕ, ◌+◌, ◌*◌, ◌≤◌, ◌++◌, [], length, IfOk, OnOk};
ghost use Rattle.test_rank.specs.Ranking.{IsRanking, pairs_of, ranked};
ghost use Rattle.test_rank.specs.Laws.{ReachesAll};
ghost use Rattle.test_rank.specs.Choosing.{picked_rows, unchosen_rows};
ghost use Rattle.test_rank.specs.Counting.{marked};

use crate::choose::{Pick, choose};
use crate::covers::TestCovers;
use crate::marks::Marks;
use crate::ranking::{RankRow, Ranking};
use cov_types::{NoMemory, Rows};
use std::alloc::Global;
use std::sync::ledger::Ledger;
use step_count::Steps;

/// Ranks tests: each chosen one adds the most points to those before it, the earliest of equals, until none adds any.
///
/// A step is taken for each test whose points are counted at the start, for each gain that is compared, and for each
/// gain that is lowered.
pub fn rank<L: Ledger>(
    alloc: Global,
    covers: &TestCovers,
    steps: &mut Steps<L>,
) -> Result<Ranking, NoMemory>
    ensures ranking { IfOk result (λ rows. IsRanking covers.now rows) }
    ensures reaches { IfOk result (λ rows. ReachesAll covers.now rows) }
    ensures ticks { IfOk result (λ rows. steps.new ≤ steps.old + length covers.now + pairs_of covers.now + length covers.now * length (ranked rows)) }
{
    let mut chosen = Marks::new(alloc, covers.len())?;
    let picks = choose(alloc, covers, &mut chosen, steps)?;
    let mut rows = Rows::new(alloc);
    push_picked(covers, picks.as_slice(), &mut rows)?;
    push_others(covers, &chosen, &mut rows)?;
    Ok(Ranking::new(rows))
}

/// Puts the rows of the picked tests at the end.
fn push_picked(
    covers: &TestCovers,
    picks: &[Pick],
    rows: &mut Rows<RankRow>,
) -> Result<(), NoMemory>
    requires { length picks.now ≤ 268435456 }
    ensures { OnOk result (rows.new ≡ rows.old ++ picked_rows covers.now picks.now) }
{
    'picks: for (at, pick) in picks.iter().enumerate() {
        rows.push(RankRow {
            test: pick.test,
            rank: (picks.len() - at) as u32,
            rank_points: pick.points,
            covered: covers.points_of(pick.test as usize).len() as u64,
        })?;
    }
    Ok(())
}

/// Puts the rows of the tests that aren't chosen at the end.
fn push_others(
    covers: &TestCovers,
    chosen: &Marks,
    rows: &mut Rows<RankRow>,
) -> Result<(), NoMemory>
    requires { length chosen.now ≡ length covers.now }
    ensures { OnOk result (rows.new ≡ rows.old ++ unchosen_rows covers.now (marked chosen.now) 0 covers.now) }
{
    'tests: for test in 0..covers.len() {
        if !chosen.has(test) {
            rows.push(RankRow {
                test: test as u32,
                rank: 0,
                rank_points: 0,
                covered: covers.points_of(test).len() as u64,
            })?;
        }
    }
    Ok(())
}
