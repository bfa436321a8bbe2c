//! The start and single cycles, with their output.

ghost use Rattle.std.specs.Prelude.{◌≡◌, ◌<◌, ◌+◌, ◌^◌, [], ◌∷◌, true, false, IfOk, OnErr};
ghost use Rattle.cov_port.specs.Causes.{HasCause};
ghost use Rattle.cycle_run.specs.declared.end.CycleEnd.TheVariants as cycle_end;
ghost use Rattle.cycle_run.specs.Ends.{end_seen};
ghost use Rattle.design_meaning.specs.SettledLaws.{IsRow};
ghost use Rattle.simulator.specs.Machines.{IsSound, SameRun, between};
ghost use Rattle.sim_run.specs.Running.{HasRun, HasRunPart, HasStarted, HasStartedPart};

use cov_port::{Sink, SinkFault};
use flat_design::Steps;
use sim_output::Output;
use simulator::{CycleEnd, Machine};
use std::sync::ledger::Ledger;
use stim_lines::Row;

/// Starts a machine, and adds the text of the start to the output.
pub(crate) fn run_start<S: Sink, L: Ledger>(
    out: &mut S,
    machine: &mut Machine<'_>,
    output: &mut Output,
    steps: &mut Steps<L>,
) -> Result<CycleEnd, SinkFault>
    requires sound { IsSound machine.old }
    requires first { machine.old.started ≡ false }
    ensures ran { IfOk result (λ end. HasStarted machine.old.design (between machine.new) (end_seen end) output.old output.new (S.written out.old)
        (S.written out.new)) }
    ensures part { OnErr result (HasStartedPart machine.old.design (between machine.new) (end_seen machine.new.end) output.old (S.written out.old)
        (S.written out.new)) }
    ensures cause { HasCause (S.faults out.old) (S.faults out.new) result }
    ensures sound { IsSound machine.new }
    ensures same { SameRun machine.old machine.new }
    ensures started { machine.new.started ≡ true }
    ensures cycles { machine.new.cycles ≡ 0 }
    ensures end { IfOk result (λ end. machine.new.end ≡ end) }
{
    let end = machine.start(steps);
    match output.add(out, machine.line()) {
        Ok(()) => Ok(end),
        Err(fault) => Err(fault),
    }
}

/// Runs a cycle with the values of a row, and adds its text to the output.
pub(crate) fn run_cycle<S: Sink, L: Ledger>(
    out: &mut S,
    machine: &mut Machine<'_>,
    row: &Row,
    output: &mut Output,
    steps: &mut Steps<L>,
) -> Result<CycleEnd, SinkFault>
    requires sound { IsSound machine.old }
    requires started { machine.old.started ≡ true }
    requires goes { machine.old.end ≡ cycle_end.Goes }
    requires row { IsRow machine.old.design.design row.now.values }
    requires few { machine.old.cycles < 2 ^ 32 }
    ensures ran { IfOk result (λ end. HasRun machine.old.design (between machine.old) (between machine.new) (row.now.values ∷ []) (end_seen end) output.old
        output.new (S.written out.old) (S.written out.new)) }
    ensures part { OnErr result (HasRunPart machine.old.design (between machine.old) (between machine.new) (row.now.values ∷ []) (end_seen machine.new.end)
        output.old
        (S.written out.old) (S.written out.new)) }
    ensures cause { HasCause (S.faults out.old) (S.faults out.new) result }
    ensures sound { IsSound machine.new }
    ensures same { SameRun machine.old machine.new }
    ensures started { machine.new.started ≡ true }
    ensures cycles { machine.new.cycles ≡ machine.old.cycles + 1 }
    ensures end { IfOk result (λ end. machine.new.end ≡ end) }
{
    let end = machine.cycle(row, steps);
    match output.add(out, machine.line()) {
        Ok(()) => Ok(end),
        Err(fault) => Err(fault),
    }
}
