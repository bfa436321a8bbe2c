//! The cycles of one row.

ghost use Rattle.std.specs.Prelude.{◌≡◌, ◌≤◌, ◌+◌, ◌^◌, true, replicate, IfOk, OnErr};
ghost use Rattle.cov_port.specs.Causes.{HasCause};
ghost use Rattle.cycle_run.specs.declared.end.CycleEnd.TheVariants as cycle_end;
ghost use Rattle.cycle_run.specs.Ends.{end_seen};
ghost use Rattle.design_meaning.specs.SettledLaws.{IsRow};
ghost use Rattle.simulator.specs.Machines.{IsSound, SameRun, between};
ghost use Rattle.sim_run.specs.Running.{HasRun, HasRunFirst};

use crate::cycle::run_cycle;
use cov_port::{Sink, SinkFault};
use flat_design::Steps;
use sim_output::Output;
use simulator::{CycleEnd, Machine};
use std::sync::ledger::Ledger;
use stim_lines::Row;

/// Runs the cycles of a row, as often as it repeats, or up to the first that sets a flag.
pub(crate) fn run_row<S: Sink, L: Ledger>(
    out: &mut S,
    machine: &mut Machine<'_>,
    row: &Row,
    output: &mut Output,
    steps: &mut Steps<L>,
) -> Result<CycleEnd, SinkFault>
    requires sound { IsSound machine.old }
    requires started { machine.old.started ≡ true }
    requires goes { machine.old.end ≡ cycle_end.Goes }
    requires row { IsRow machine.old.design.design row.now.values }
    requires few { machine.old.cycles + row.now.repeat ≤ 2 ^ 32 }
    ensures ran { IfOk result (λ end. HasRun machine.old.design (between machine.old) (between machine.new) (replicate row.now.repeat row.now.values)
        (end_seen end)
        output.old output.new (S.written out.old) (S.written out.new)) }
    ensures part { OnErr result (HasRunFirst machine.old.design (between machine.old) (between machine.new) (replicate row.now.repeat row.now.values)
        (end_seen machine.new.end) output.old (S.written out.old) (S.written out.new)) }
    ensures cause { HasCause (S.faults out.old) (S.faults out.new) result }
    ensures sound { IsSound machine.new }
    ensures same { SameRun machine.old machine.new }
    ensures started { machine.new.started ≡ true }
    ensures cycles { IfOk result (λ end. end ≡ cycle_end.Goes → machine.new.cycles ≡ machine.old.cycles + row.now.repeat) }
    ensures end { IfOk result (λ end. machine.new.end ≡ end) }
{
    for _turn in 0..row.repeat {
        match run_cycle(out, machine, row, output, steps) {
            Ok(CycleEnd::Goes) => {}
            Ok(end) => return Ok(end),
            Err(fault) => return Err(fault),
        }
    }
    Ok(CycleEnd::Goes)
}
