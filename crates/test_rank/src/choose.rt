ghost use Rattle.std.specs.Prelude.{◌≡◌, ℕ, ◌+◌, ◌*◌, ◌<◌, ◌≤◌, ◌||◌, [], true, false, length, get_or, IfOk};
ghost use Rattle.test_rank.specs.Ranking.{AreChosen, is_among, pairs_of, points_of};
ghost use Rattle.test_rank.specs.Counting.{AreGains, marked, total};
ghost use Rattle.test_rank.specs.Choosing.{picks_behind, tests_of};

use crate::covers::TestCovers;
use crate::gains::Gains;
use crate::marks::Marks;
use cov_types::{NoMemory, Rows};
use std::alloc::Global;
use std::sync::ledger::Ledger;
use step_count::Steps;

/// A chosen test, and how many points it adds to those chosen before it.
#[derive(Clone, Copy)]
pub(crate) struct Pick {
    pub(crate) test: u32,
    pub(crate) points: u64,
}

/// Marks the points of a test as covered, and lowers the gains of all tests that cover one of them.
fn cover<L: Ledger>(
    covers: &TestCovers,
    test: usize,
    covered: &mut Marks,
    gains: &mut Gains,
    steps: &mut Steps<L>,
)
    requires room { (t p : ℕ) → is_among (points_of covers.now t) p ≡ true → p < length covered.old }
    requires gains { AreGains covers.now (marked covered.old) gains.old }
    ensures gains { AreGains covers.now (marked covered.new) gains.new }
    ensures covered { (p : ℕ) → marked covered.new p ≡ (marked covered.old p || is_among (points_of covers.now test) p) }
    ensures room { length covered.new ≡ length covered.old }
    ensures len { length gains.new ≡ length gains.old }
    ensures falls { (t : ℕ) → get_or gains.new t 0 ≤ get_or gains.old t 0 }
    ensures ticks { steps.new + total gains.new ≡ steps.old + total gains.old }
{
    let points = covers.points_of(test);
    'points: for point in points {
        let at = *point as usize;
        if !covered.has(at) {
            covered.mark(at);
            gains.lower_all(covers.tests_at(at), steps);
        }
    }
}

/// The chosen tests in order. `chosen` gets their marks.
pub(crate) fn choose<L: Ledger>(
    alloc: Global,
    covers: &TestCovers,
    chosen: &mut Marks,
    steps: &mut Steps<L>,
) -> Result<Rows<Pick>, NoMemory>
    requires room { length chosen.old ≡ length covers.now }
    requires none { (t : ℕ) → marked chosen.old t ≡ false }
    ensures chosen { IfOk result (λ picks. AreChosen covers.now (tests_of picks)) }
    ensures points { IfOk result (λ picks. picks ≡ picks_behind covers.now [] (tests_of picks)) }
    ensures marks { IfOk result (λ picks. (t : ℕ) → marked chosen.new t ≡ is_among (tests_of picks) t) }
    ensures room { length chosen.new ≡ length covers.now }
    ensures most { IfOk result (λ picks. length picks ≤ 268435456) }
    ensures ticks { IfOk result (λ picks. steps.new ≤ steps.old + length covers.now + pairs_of covers.now + length covers.now * length picks) }
{
    let mut covered = Marks::new(alloc, covers.end())?;
    let mut gains = Gains::of(alloc, covers, steps)?;
    let mut picks = Rows::new(alloc);
    'picks: while gains.left() > 0 {
        let best = gains.greatest(steps);
        picks.push(Pick {
            test: best as u32,
            points: gains.get(best),
        })?;
        chosen.mark(best);
        cover(covers, best, &mut covered, &mut gains, steps);
    }
    Ok(picks)
}
