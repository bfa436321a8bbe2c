//! What was read of data files so far.

ghost use Rattle.std.specs.Prelude.{◌≡◌, OnOk, IfOk, IsErrOf, Some, None};
ghost use Rattle.cov_types.specs.Key.{IsKey};
ghost use Rattle.cov_types.specs.declared.limit.LimitName.{LimitName};
ghost use Rattle.cov_dat.specs.Merging.{added, limit_passed};
ghost use Rattle.cover_gather.specs.Steps.{TallyState, closed, limit_at_end, no_tally, record_of, tallied};

use crate::points::put_in_order;
use cov_dat::{MergeFault, Merged};
use cov_port::NoMemory;
use std::alloc::Global;
use std::marker::Model;
use test_rank::{RankFault, TestCovers};

/// What all data files come to.
#[derive(Drop)]
pub struct Gathered {
    /// The merged counts, in order of first arrival.
    pub merged: Merged,
    /// Where tests are ranked, the points that each file covers: the numbers of its keys with a record of at least 1.
    pub covers: TestCovers,
}

/// The merged counts, the points of each file that ended, and those of the open one, where tests are ranked.
#[derive(Drop)]
pub(crate) struct Tally {
    merged: Merged,
    covers: TestCovers,
    // The numbers of the keys of the open file's records of at least 1, in order of arrival.
    points: Vec<u32>,
}

impl Model for Tally {
    ghost use Rattle.cover_gather.specs.Steps.{TallyState};

    ghost Value = { TallyState };

    ghost view = { λ tally. record { counts = tally.merged; covers = tally.covers; points = tally.points.items } };
}

impl Tally {
    /// Nothing is read.
    pub(crate) fn new(alloc: Global) -> Result<Tally, NoMemory>
        ensures { IfOk result (λ tally. tally ≡ no_tally) }
    {
        let merged = Merged::new(alloc)?;
        Ok(Tally {
            merged,
            covers: TestCovers::new(alloc),
            points: Vec::new(alloc),
        })
    }

    /// Adds a record of the open file.
    pub(crate) fn add(&mut self, ranks: bool, key: &[u8], count: u64) -> Result<(), MergeFault>
        requires { IsKey key.now }
        ensures ok { OnOk result (self.new ≡ tallied ranks self.old (record_of key.now count)) }
        ensures limit { (name : LimitName) → IsErrOf result (MergeFault.Limit name) → limit_passed (added self.old.counts key.now count) ≡ Some name }
        ensures within { OnOk result (limit_passed (added self.old.counts key.now count) ≡ None) }
    {
        let number = self.merged.add(key, count)?;
        if ranks && count >= 1 {
            self.points.push(number)?;
        }
        Ok(())
    }

    /// Ends the open file.
    pub(crate) fn end_file(&mut self, ranks: bool) -> Result<(), RankFault>
        ensures ok { OnOk result (self.new ≡ closed ranks self.old) }
        ensures limit { (name : LimitName) → IsErrOf result (RankFault.Limit name) → limit_at_end ranks self.old ≡ Some name }
        ensures within { OnOk result (limit_at_end ranks self.old ≡ None) }
    {
        if !ranks {
            return Ok(());
        }
        put_in_order(&mut self.points);
        self.covers.add_test(self.points.as_slice())?;
        self.points.clear();
        Ok(())
    }

    /// The counts and the points.
    pub(crate) fn into_gathered(self) -> Gathered
        ensures merged { result.merged ≡ self.counts }
        ensures covers { result.covers ≡ self.covers }
    {
        let Tally { merged, covers, .. } = self;
        Gathered { merged, covers }
    }
}
