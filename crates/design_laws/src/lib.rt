//! Laws of designs, for the proofs of other crates: a call of one of these functions does nothing, and its contract is
//! the law.
#![tactic(auto)]

ghost use Rattle.design_meaning.specs.RunLaws.{BitsTellWords, BitsTellStates, PartsLeaveOthers, PartsCommute, RunsKeepStates, LeavesOthers};
ghost use Rattle.design_meaning.specs.RunLaws.{DrivesItsKind, EarlyReadsAreReads, SeesOnlyReads, WritesOrLeaves, WritesAlike, TwiceIsOnce, ValuesFit};
ghost use Rattle.design_meaning.specs.CycleLaws.{OneEdge, OrderRunsOnce};
ghost use Rattle.design_meaning.specs.MachineLaws.{StartsAreRuns, CyclesAreRuns};
ghost use Rattle.design_meaning.specs.SettledLaws.{SomeStateAgrees, OrdersSettle, OrderSettlesOnce, NeverBoth, OneFault};

/// States are told by their bits, and a part changes its bits alone.
pub fn states_by_bits()
    ensures words { BitsTellWords }
    ensures states { BitsTellStates }
    ensures parts { PartsLeaveOthers }
    ensures commute { PartsCommute }
{}

/// The value of a well typed expression has its width.
pub fn values_fit()
    ensures { ValuesFit }
{}

/// A process changes the bits alone that it drives, and sees those alone that it reads.
pub fn runs_by_bits()
    ensures keep { RunsKeepStates }
    ensures leave { LeavesOthers }
    ensures kinds { DrivesItsKind }
    ensures early { EarlyReadsAreReads }
    ensures effects { SeesOnlyReads }
    ensures writes { WritesOrLeaves }
    ensures alike { WritesAlike }
    ensures twice { TwiceIsOnce }
{}

/// There is exactly one settled state.
pub fn settles_once()
    ensures some { SomeStateAgrees }
    ensures order { OrdersSettle }
    ensures once { OrderSettlesOnce }
    ensures never { NeverBoth }
    ensures fault { OneFault }
{}

/// There is exactly one run, and a start and cycles one after the other are one.
pub fn runs_once()
    ensures edge { OneEdge }
    ensures order { OrderRunsOnce }
    ensures starts { StartsAreRuns }
    ensures cycles { CyclesAreRuns }
{}
