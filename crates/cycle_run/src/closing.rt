ghost use Rattle.std.specs.Prelude.{◌≡◌, ◌≤◌, ◌+◌, ◌++◌, length};
ghost use Rattle.circuit_run.specs.Ends.{end_of};
ghost use Rattle.circuit_run.specs.Writes.{all_written};
ghost use Rattle.cycle_phases.specs.Others.{AreOthers};
ghost use Rattle.cycle_phases.specs.Phases.{runs_in, turns};
ghost use Rattle.design_meaning.specs.Counters.{HasCounted};
ghost use Rattle.design_meaning.specs.Processes.{processes_that};
ghost use Rattle.design_meaning.specs.States.{IsStateOf};
ghost use Rattle.design_meaning.specs.Valid.{IsValidDesign};
ghost use Rattle.flat_design.specs.Effects.{room_of_all};
ghost use Rattle.cycle_run.specs.Ends.{end_seen};
ghost use Rattle.cycle_run.specs.Tally.{CanRaise};

use crate::end::{CycleEnd, cycle_end};
use crate::line::Line;
use cycle_parts::raise;
use cycle_phases::{Phase, run_phase};
use flat_design::{Design, Effects, State, Steps};
use place_marks::PlaceMarks;
use std::sync::ledger::Ledger;

/// Runs the processes of a phase, makes their updates, puts their text behind the line, and raises their counters. Tells how
/// the run stands then.
pub fn close_phase<L: Ledger>(
    design: &Design,
    others: &PlaceMarks,
    phase: Phase,
    now: &mut State,
    effects: &mut Effects,
    line: &mut Line,
    counts: &mut [u64],
    steps: &mut Steps<L>,
) -> CycleEnd
    requires valid { IsValidDesign design.now }
    requires others { AreOthers design.now others.now }
    requires of_design { IsStateOf design.now now.old }
    requires room { effects.old.room ≡ room_of_all design.now }
    requires text { length line.old.bytes + (room_of_all design.now).bytes ≤ line.old.room }
    requires fit { CanRaise counts.old (room_of_all design.now).counters }
    ensures now { let o = turns (runs_in phase) design.now now.old in now.new ≡ all_written o.state o.updates }
    ensures text { line.new ≡ record line.old { bytes = line.old.bytes ++ (turns (runs_in phase) design.now now.old).text } }
    ensures counts { HasCounted counts.old (turns (runs_in phase) design.now now.old).notes counts.new }
    ensures end { let o = turns (runs_in phase) design.now now.old in end_seen result ≡ end_of o.finished o.stopped }
    ensures of_design { IsStateOf design.now now.new }
    ensures room { effects.new.room ≡ effects.old.room }
    ensures raised { length (turns (runs_in phase) design.now now.old).notes ≤ (room_of_all design.now).counters }
    ensures ticks { steps.new ≡ steps.old + length (processes_that (runs_in phase) design.now) }
{
    run_phase(design, others, phase, now, effects, steps);
    line.print_text(effects.text());
    raise(counts, effects.raised());
    effects.apply(now);
    cycle_end(effects.finished(), effects.stopped())
}
