//! Laws of the cycles of a run, for the proofs of the crates that run them: a call of one of these functions does
//! nothing, and its contract is the law.
#![tactic(auto)]

ghost use Rattle.cycle_laws.specs.Laws.{LeavesUnset, DefersDriven, IdleStays, RestLeavesReads, EdgesChain, ChainsEnd};

/// A process that reads and drives what it did before need not be run again.
pub fn idle_runs_stay()
    ensures idle { IdleStays }
    ensures reads { RestLeavesReads }
{}

/// Processes at the edge may be run one after the other.
pub fn edges_chain()
    ensures unset { LeavesUnset }
    ensures deferred { DefersDriven }
    ensures chain { EdgesChain }
    ensures end { ChainsEnd }
{}
