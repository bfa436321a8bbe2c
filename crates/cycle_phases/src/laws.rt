ghost use Rattle.cycle_phases.specs.Laws.{EdgeInTurn, PhasesLeave};

/// Laws for the proofs of callers: a call does nothing.
pub fn edge_runs_in_turn()
    ensures edge { EdgeInTurn }
    ensures leaves { PhasesLeave }
{}
