ghost use Rattle.std.specs.Prelude.{◌≡◌, ℕ, ◌+◌, ◌^◌, ◌<◌, ◌≤◌, [], length, map, get_or, IfOk};
ghost use Rattle.test_rank.specs.Ranking.{pairs_of};
ghost use Rattle.test_rank.specs.Counting.{count, total};

use crate::covers::TestCovers;
use cov_types::NoMemory;
use std::alloc::Global;
use std::marker::Model;
use std::sync::ledger::Ledger;
use step_count::Steps;

/// How many points each test would add, and the sum of all.
#[derive(Drop)]
pub(crate) struct Gains {
    gains: Vec<u64>,
    left: u64,
}

impl Model for Gains {
    ghost use Rattle.std.specs.Prelude.{◌≡◌, List, ℕ};
    ghost use Rattle.test_rank.specs.Counting.{total};

    ghost Value = { List ℕ };

    ghost view = { λ gains. gains.gains.items };

    ghost invariant = { λ gains. gains.left ≡ total gains.gains.items };
}

impl Gains {
    /// The number of points of each test. A test is a step.
    pub(crate) fn of<L: Ledger>(
        alloc: Global,
        covers: &TestCovers,
        steps: &mut Steps<L>,
    ) -> Result<Gains, NoMemory>
        ensures all { IfOk result (λ gains. gains ≡ map (λ points. length points) covers.now) }
        ensures ticks { IfOk result (λ gains. steps.new ≡ steps.old + length covers.now) }
        ensures few { IfOk result (λ gains. length covers.now < 2 ^ 32) }
        ensures most { IfOk result (λ gains. pairs_of covers.now ≤ 268435456) }
    {
        let mut gains = Vec::new(alloc);
        'tests: for test in 0..covers.len() {
            steps.tick();
            gains.push(covers.points_of(test).len() as u64)?;
        }
        Ok(Gains {
            gains,
            left: covers.pairs() as u64,
        })
    }

    /// The sum of all.
    pub(crate) fn left(&self) -> u64
        ensures { result ≡ total self.now }
    {
        self.left
    }

    pub(crate) fn get(&self, test: usize) -> u64
        requires { test < length self.now }
        ensures { result ≡ get_or self.now test 0 }
    {
        self.gains[test]
    }

    /// Lowers the gain of a test by one.
    fn lower(&mut self, test: usize)
        requires { 0 < get_or self.old test 0 }
        ensures here { get_or self.new test 0 + 1 ≡ get_or self.old test 0 }
        ensures others { (t : ℕ) → (t ≡ test → ⊥) → get_or self.new t 0 ≡ get_or self.old t 0 }
        ensures len { length self.new ≡ length self.old }
        ensures sum { total self.new + 1 ≡ total self.old }
    {
        self.gains[test] -= 1;
        self.left -= 1;
    }

    /// Lowers the gain of each of these tests by one. A gain is a step.
    pub(crate) fn lower_all<L: Ledger>(&mut self, tests: &[u32], steps: &mut Steps<L>)
        requires { (t : ℕ) → count t tests.now ≤ get_or self.old t 0 }
        ensures lowered { (t : ℕ) → get_or self.new t 0 + count t tests.now ≡ get_or self.old t 0 }
        ensures len { length self.new ≡ length self.old }
        ensures ticks { steps.new + total self.new ≡ steps.old + total self.old }
    {
        'tests: for test in tests {
            steps.tick();
            self.lower(*test as usize);
        }
    }

    /// The earliest test with the greatest gain. A test is a step.
    pub(crate) fn greatest<L: Ledger>(&self, steps: &mut Steps<L>) -> usize
        requires { 0 < length self.now }
        ensures given { result < length self.now }
        ensures most { (t : ℕ) → get_or self.now t 0 ≤ get_or self.now result 0 }
        ensures earliest { (t : ℕ) → t < result → get_or self.now t 0 < get_or self.now result 0 }
        ensures ticks { steps.new ≡ steps.old + length self.now }
    {
        steps.tick();
        let mut best = 0;
        'tests: for test in 1..self.gains.len() {
            steps.tick();
            if self.gains[test] > self.gains[best] {
                best = test;
            }
        }
        best
    }
}
