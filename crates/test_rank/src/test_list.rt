ghost use Rattle.std.specs.Prelude.{◌≡◌, [], ◌∷◌, ◌++◌, nat_lt, filter, OnOk, OnErr};

use cov_types::NoMemory;
use std::alloc::Global;
use std::marker::Model;

/// The tests that cover a point.
#[derive(Drop)]
pub(crate) struct TestList {
    tests: Vec<u32>,
}

impl Model for TestList {
    ghost use Rattle.std.specs.Prelude.{List, ℕ};

    ghost Value = { List ℕ };

    ghost view = { λ list. list.tests.items };
}

impl TestList {
    pub(crate) fn new(alloc: Global) -> TestList
        ensures { result ≡ [] }
    {
        TestList {
            tests: Vec::new(alloc),
        }
    }

    pub(crate) fn push(&mut self, test: u32) -> Result<(), NoMemory>
        ensures ok { OnOk result (self.new ≡ self.old ++ test ∷ []) }
        ensures err { OnErr result (self.new ≡ self.old) }
    {
        match self.tests.push(test) {
            Ok(()) => Ok(()),
            Err(_) => Err(NoMemory),
        }
    }

    /// Leaves the tests below a number.
    pub(crate) fn keep_below(&mut self, end: u32)
        ensures { self.new ≡ filter (λ t. nat_lt t end) self.old }
    {
        self.tests.retain(|test| *test < end);
    }

    pub(crate) fn as_slice(&self) -> &[u32]
        ensures { result.now ≡ self.now }
    {
        self.tests.as_slice()
    }
}
