ghost use Rattle.std.specs.Prelude.{◌≡◌, ℕ, [], ◌∷◌, ◌++◌, ◌<◌, ◌≤◌, ◌^◌, length, OnOk, OnErr, IsErrOf, Some, None};
ghost use Rattle.cov_types.specs.declared.limit.LimitName.{LimitName};
ghost use Rattle.test_rank.specs.Ranking.{Ascends, limit_passed, pairs_of, points_of};
ghost use Rattle.test_rank.specs.Counting.{count};
ghost use Rattle.test_rank.specs.declared.fault.RankFault.TheVariants.{Limit};

use crate::fault::RankFault;
use crate::point_index::PointIndex;
use cov_types::{LimitName, Rows};
use std::alloc::Global;
use std::marker::Model;

/// The greatest number of pairs of a test and a point that it covers.
const MOST_PAIRS: usize = 268_435_456;

/// The points that each test covers, which contracts see as a list of lists of their numbers.
///
/// Beside them stand the tests at each point, in a table as long as the greatest point's number.
#[derive(Drop)]
pub struct TestCovers {
    alloc: Global,
    tests: Rows<Rows<u32>>,
    index: PointIndex,
    pairs: usize,
}

impl Model for TestCovers {
    ghost use Rattle.std.specs.Prelude.{◌≡◌, List, ℕ, ◌<◌, ◌≤◌, ◌^◌, length};
    ghost use Rattle.test_rank.specs.Ranking.{Ascends, pairs_of};
    ghost use Rattle.test_rank.specs.Counting.{IsIndex};
    ghost use Rattle.std.specs.List.{AllByRecursion};

    ghost Value = { List (List ℕ) };

    ghost view = { λ covers. covers.tests };

    ghost invariant = { λ covers. IsIndex covers.tests covers.index
        × (covers.pairs ≡ pairs_of covers.tests)
        × (covers.pairs ≤ 268435456)
        × (length covers.tests < 2 ^ 32)
        × AllByRecursion Ascends covers.tests };
}

impl TestCovers {
    /// No tests. It takes no memory.
    pub fn new(alloc: Global) -> TestCovers
        ensures { result ≡ [] }
    {
        TestCovers {
            alloc,
            tests: Rows::new(alloc),
            index: PointIndex::new(alloc),
            pairs: 0,
        }
    }

    /// Adds a test with the numbers of the points that it covers. Its own number is the number of tests before it.
    ///
    /// `NoMemory` comes also where there are 2^32 - 1 tests.
    pub fn add_test(&mut self, points: &[u32]) -> Result<(), RankFault>
        requires { Ascends points.now }
        ensures ok { OnOk result (self.new ≡ self.old ++ points.now ∷ []) }
        ensures err { OnErr result (self.new ≡ self.old) }
        ensures limit { (name : LimitName) → IsErrOf result (RankFault.Limit name) → limit_passed (self.old ++ points.now ∷ []) ≡ Some name }
        ensures within { OnOk result (limit_passed (self.old ++ points.now ∷ []) ≡ None) }
    {
        let pairs = self.pairs + points.len();
        if pairs > MOST_PAIRS {
            return Err(RankFault::Limit(LimitName::CoveredPairs));
        }
        let number = self.tests.len();
        if number >= 4_294_967_295 {
            return Err(RankFault::NoMemory);
        }
        let row = Rows::from_vec(Vec::from_slice(self.alloc, points)?);
        self.index.add(self.alloc, number as u32, points)?;
        if let Err(_fault) = self.tests.push(row) {
            self.index.forget(number as u32);
            return Err(RankFault::NoMemory);
        }
        self.pairs = pairs;
        Ok(())
    }

    /// The number of tests.
    pub(crate) fn len(&self) -> usize
        ensures len { result ≡ length self.now }
        ensures most { result < 2 ^ 32 }
    {
        self.tests.len()
    }

    /// The points of a test, none where there is no such test.
    pub(crate) fn points_of(&self, test: usize) -> &[u32]
        ensures { result.now ≡ points_of self.now test }
    {
        if test >= self.tests.len() {
            return &[];
        }
        self.tests.as_slice()[test].as_slice()
    }

    /// A number above all points.
    pub(crate) fn end(&self) -> usize
        ensures { (test point : ℕ) → 0 < count point (points_of self.now test) → point < result }
    {
        self.index.len()
    }

    /// The tests that cover a point.
    pub(crate) fn tests_at(&self, point: usize) -> &[u32]
        ensures { (test : ℕ) → count test result.now ≡ count point (points_of self.now test) }
    {
        if point >= self.index.len() {
            return &[];
        }
        self.index.tests_at(point)
    }

    /// The number of pairs.
    pub(crate) fn pairs(&self) -> usize
        ensures pairs { result ≡ pairs_of self.now }
        ensures most { result ≤ 268435456 }
    {
        self.pairs
    }
}
