ghost use Rattle.std.specs.Prelude.{◌≡◌, ℕ, ◌<◌, ◌||◌, false, length, nat_eq, IfOk};
ghost use Rattle.test_rank.specs.Counting.{marked};

use cov_types::NoMemory;
use std::alloc::Global;
use std::marker::Model;

/// Which numbers are marked.
#[derive(Drop)]
pub(crate) struct Marks {
    marks: Vec<bool>,
}

impl Model for Marks {
    ghost use Rattle.std.specs.Prelude.{List, Bool};

    ghost Value = { List Bool };

    ghost view = { λ marks. marks.marks.items };
}

impl Marks {
    /// No mark on the numbers below an end.
    pub(crate) fn new(alloc: Global, end: usize) -> Result<Marks, NoMemory>
        ensures none { IfOk result (λ marks. (n : ℕ) → marked marks n ≡ false) }
        ensures len { IfOk result (λ marks. length marks ≡ end) }
    {
        let marks = vec![in alloc; false; end]?;
        Ok(Marks { marks })
    }

    pub(crate) fn has(&self, n: usize) -> bool
        requires { n < length self.now }
        ensures { result ≡ marked self.now n }
    {
        self.marks[n]
    }

    pub(crate) fn mark(&mut self, n: usize)
        requires { n < length self.old }
        ensures marked { (m : ℕ) → marked self.new m ≡ (marked self.old m || nat_eq m n) }
        ensures len { length self.new ≡ length self.old }
    {
        self.marks[n] = true;
    }
}
