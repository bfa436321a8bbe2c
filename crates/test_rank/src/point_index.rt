ghost use Rattle.std.specs.Prelude.{◌≡◌, ◌≢◌, ℕ, [], ◌∷◌, ◌++◌, ◌<◌, ◌≤◌, length, filter, nat_lt, slice_set as set, OnOk, OnErr};
ghost use Rattle.test_rank.specs.Counting.{count, tests_at, HasAdded};

use crate::test_list::TestList;
use cov_types::NoMemory;
use std::alloc::Global;
use std::marker::Model;

/// The tests at each point, by the point's number.
#[derive(Drop)]
pub(crate) struct PointIndex {
    lists: Vec<TestList>,
}

impl Model for PointIndex {
    ghost use Rattle.std.specs.Prelude.{List, ℕ};

    ghost Value = { List (List ℕ) };

    ghost view = { λ index. index.lists.items };
}

impl PointIndex {
    pub(crate) fn new(alloc: Global) -> PointIndex
        ensures { result ≡ [] }
    {
        PointIndex {
            lists: Vec::new(alloc),
        }
    }

    /// Puts a point without tests behind the others.
    fn grow(&mut self, alloc: Global) -> Result<(), NoMemory>
        ensures ok { OnOk result (self.new ≡ self.old ++ [] ∷ []) }
        ensures err { OnErr result (self.new ≡ self.old) }
    {
        match self.lists.push(TestList::new(alloc)) {
            Ok(()) => Ok(()),
            Err(_) => Err(NoMemory),
        }
    }

    /// Makes room for points up to this one.
    fn reach(&mut self, alloc: Global, point: usize) -> Result<(), NoMemory>
        ensures same { (p : ℕ) → tests_at self.new p ≡ tests_at self.old p }
        ensures reached { OnOk result (point < length self.new) }
    {
        'lists: while self.len() <= point {
            if let Err(fault) = self.grow(alloc) {
                return Err(fault);
            }
        }
        Ok(())
    }

    /// Puts a test at a point.
    fn put(&mut self, point: usize, test: u32) -> Result<(), NoMemory>
        requires { point < length self.old }
        ensures ok { OnOk result (self.new ≡ set self.old point (tests_at self.old point ++ test ∷ [])) }
        ensures err { OnErr result (self.new ≡ self.old) }
    {
        self.lists[point].push(test)
    }

    /// Puts a test at each of some points. Without memory it may stand at some of them.
    fn add_all(&mut self, alloc: Global, test: u32, points: &[u32]) -> Result<(), NoMemory>
        ensures ok { OnOk result (HasAdded test points.now self.old self.new) }
        ensures others { (t p : ℕ) → t ≢ test → count t (tests_at self.new p) ≡ count t (tests_at self.old p) }
    {
        'points: for point in points {
            let at = *point as usize;
            if let Err(fault) = self.reach(alloc, at) {
                return Err(fault);
            }
            if let Err(fault) = self.put(at, test) {
                return Err(fault);
            }
        }
        Ok(())
    }

    /// Takes away the tests from a number on.
    pub(crate) fn forget(&mut self, end: u32)
        ensures below { (t p : ℕ) → t < end → count t (tests_at self.new p) ≡ count t (tests_at self.old p) }
        ensures gone { (t p : ℕ) → end ≤ t → count t (tests_at self.new p) ≡ 0 }
    {
        'points: for point in 0..self.len() {
            self.keep_at(point, end);
        }
    }

    /// Leaves the tests below a number at a point.
    fn keep_at(&mut self, point: usize, end: u32)
        requires { point < length self.old }
        ensures { self.new ≡ set self.old point (filter (λ t. nat_lt t end) (tests_at self.old point)) }
    {
        self.lists[point].keep_below(end);
    }

    /// Puts a test that no point has yet at each of some points.
    pub(crate) fn add(&mut self, alloc: Global, test: u32, points: &[u32]) -> Result<(), NoMemory>
        requires { (t p : ℕ) → test ≤ t → count t (tests_at self.old p) ≡ 0 }
        ensures ok { OnOk result (HasAdded test points.now self.old self.new) }
        ensures err { OnErr result ((t p : ℕ) → count t (tests_at self.new p) ≡ count t (tests_at self.old p)) }
    {
        match self.add_all(alloc, test, points) {
            Ok(()) => Ok(()),
            Err(fault) => {
                self.forget(test);
                Err(fault)
            }
        }
    }

    /// One more than the greatest point that has room.
    pub(crate) fn len(&self) -> usize
        ensures { result ≡ length self.now }
    {
        self.lists.len()
    }

    /// The tests at a point.
    pub(crate) fn tests_at(&self, point: usize) -> &[u32]
        requires { point < length self.now }
        ensures { result.now ≡ tests_at self.now point }
    {
        self.lists[point].as_slice()
    }
}
