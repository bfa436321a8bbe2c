//! Laws of the orders of designs, for the proofs of other crates: a call of one of these functions does nothing, and its
//! contract is the law.
#![tactic(auto)]

ghost use Rattle.design_meaning.specs.CycleLaws.{OneRun};
ghost use Rattle.design_meaning.specs.SettledLaws.{FlowHasOrder, FlowsOrFaults, AlwaysSettles};

/// A design that flows has an order, so one settled state and one run.
pub fn designs_run_once()
    ensures order { FlowHasOrder }
    ensures run { OneRun }
    ensures settles { AlwaysSettles }
{}

/// A design that doesn't flow has a fault.
pub fn designs_flow_or_have_faults()
    ensures { FlowsOrFaults }
{}
