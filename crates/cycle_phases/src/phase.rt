ghost use Rattle.std.specs.Prelude.{◌≡◌, ◌+◌, ◌≤◌, ◌<◌, All, length};
ghost use Rattle.design_meaning.specs.Processes.{processes_that};
ghost use Rattle.design_meaning.specs.States.{IsStateOf};
ghost use Rattle.design_meaning.specs.Valid.{IsValidDesign};
ghost use Rattle.flat_design.specs.Effects.{added, empty, room_of_all};
ghost use Rattle.cycle_phases.specs.Others.{AreOthers};
ghost use Rattle.cycle_phases.specs.Phases.{runs_in, turns};

use cov_types::ProcessKind;
use flat_design::{Design, Effects, State, Steps, run_process};
use place_marks::PlaceMarks;
use std::sync::ledger::Ledger;

/// When processes run one after the other.
#[derive(Clone, Copy, Debug, PartialEq, Eq)]
pub enum Phase {
    /// Before the first cycle: the initial processes.
    Start,
    /// At the edge of the clock: clocked processes and covers.
    Edge,
}

/// Whether a process of this kind runs in the phase.
fn has_kind(phase: Phase, kind: ProcessKind) -> bool
    ensures { result ≡ runs_in phase kind }
{
    match phase {
        Phase::Start => matches!(kind, ProcessKind::Initial),
        Phase::Edge => matches!(kind, ProcessKind::Clocked | ProcessKind::Cover),
    }
}

/// Runs the processes of a phase one after the other, with one tick for each. What they leave beside the state stands in `effects`
/// then, and their updates are still to be made. Of the processes only those are looked at that are no assignments. It takes no memory.
pub fn run_phase<L: Ledger>(
    design: &Design,
    others: &PlaceMarks,
    phase: Phase,
    now: &mut State,
    effects: &mut Effects,
    steps: &mut Steps<L>,
)
    requires valid { IsValidDesign design.now }
    requires others { AreOthers design.now others.now }
    requires of_design { IsStateOf design.now now.old }
    requires room { effects.old.room ≡ room_of_all design.now }
    ensures state { now.new ≡ (turns (runs_in phase) design.now now.old).state }
    ensures effects { effects.new ≡ added (empty effects.old.room) (turns (runs_in phase) design.now now.old) }
    ensures of_design { IsStateOf design.now now.new }
    ensures updates { All (λ part. part.var < length now.new) effects.new.updates }
    ensures text { length effects.new.text ≤ (room_of_all design.now).bytes }
    ensures raised { length effects.new.raised ≤ (room_of_all design.now).counters }
    ensures ticks { steps.new ≡ steps.old + length (processes_that (runs_in phase) design.now) }
{
    effects.clear();
    let processes = design.processes.as_slice();
    let mut at = others.next_before(0, processes.len());
    'process: while at < processes.len() {
        if has_kind(phase, processes[at].kind) {
            run_process(design, at as u32, now, effects, steps);
        }
        at = others.next_before(at + 1, processes.len());
    }
}
