//! One record, and the end of a file.

ghost use Rattle.std.specs.Prelude.{◌≡◌, [], ◌∷◌, Ok, OnOk, IfErr, option_copied};
ghost use Rattle.cov_types.specs.Key.{IsKey};
ghost use Rattle.cov_types.specs.declared.limit.LimitName.{LimitName};
ghost use Rattle.command_ending.specs.Answer.{over_limit as answer_of};
ghost use Rattle.command_ending.specs.Stops.{IsRefusal};
ghost use Rattle.command_cover.specs.CoverReading.{ended};
ghost use Rattle.cover_answer.specs.Gathering.{keeps};
ghost use Rattle.cover_gather.specs.Steps.{PassesLimit, continued, one_arrival};

use crate::tally::Tally;
use command_ending::{Ending, over_limit};
use cov_dat::{MergeFault, kept};
use std::alloc::Global;
use test_rank::RankFault;

/// Whether the filter keeps a key; without one all are kept.
fn is_kept(filter: Option<&str>, key: &[u8]) -> bool
    ensures { result ≡ keeps (option_copied filter.entry) key.now }
{
    match filter {
        None => true,
        Some(pattern) => kept(key, pattern.as_bytes()),
    }
}

/// How a command ends for a limit on merged keys.
fn limit_of(alloc: Global, fault: MergeFault) -> Ending
    ensures { IsRefusal (λ answer. (limit : LimitName) × (fault ≡ MergeFault.Limit limit) × (answer ≡ answer_of limit)) result }
{
    match fault {
        MergeFault::Limit(limit) => over_limit(alloc, limit),
        MergeFault::NoMemory => Ending::NoMemory,
    }
}

/// How a command ends for the limit on covered pairs.
fn pairs_of(alloc: Global, fault: RankFault) -> Ending
    ensures { IsRefusal (λ answer. (limit : LimitName) × (fault ≡ RankFault.Limit limit) × (answer ≡ answer_of limit)) result }
{
    match fault {
        RankFault::Limit(limit) => over_limit(alloc, limit),
        RankFault::NoMemory => Ending::NoMemory,
    }
}

/// Adds a record, where the filter keeps it.
pub(crate) fn add_record(
    alloc: Global,
    filter: Option<&str>,
    ranks: bool,
    key: &[u8],
    count: u64,
    tally: &mut Tally,
) -> Result<(), Ending>
    requires { IsKey key.now }
    ensures ok { OnOk result (continued ranks tally.old (one_arrival (keeps (option_copied filter.entry)) key.now count) ≡ Ok tally.new) }
    ensures err { IfErr result (IsRefusal (PassesLimit ranks tally.old (one_arrival (keeps (option_copied filter.entry)) key.now count))) }
{
    if !is_kept(filter, key) {
        return Ok(());
    }
    match tally.add(ranks, key, count) {
        Ok(()) => Ok(()),
        Err(fault) => Err(limit_of(alloc, fault)),
    }
}

/// Ends the open file.
pub(crate) fn end_file(alloc: Global, ranks: bool, tally: &mut Tally) -> Result<(), Ending>
    ensures ok { OnOk result (continued ranks tally.old (ended ∷ []) ≡ Ok tally.new) }
    ensures err { IfErr result (IsRefusal (PassesLimit ranks tally.old (ended ∷ []))) }
{
    match tally.end_file(ranks) {
        Ok(()) => Ok(()),
        Err(fault) => Err(pairs_of(alloc, fault)),
    }
}
