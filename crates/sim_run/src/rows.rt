//! Row by row.

ghost use Rattle.std.specs.Prelude.{◌≡◌, ◌≤◌, ◌<◌, ◌^◌, List, ℕ, true, None, length, map, replicate, IfNone, IfSome};
ghost use Rattle.circuit_run.specs.Ends.{goes};
ghost use Rattle.cycle_run.specs.declared.end.CycleEnd.TheVariants as cycle_end;
ghost use Rattle.cycle_run.specs.Ends.{end_seen};
ghost use Rattle.simulator.specs.Machines.{IsSound, SameRun, between};
ghost use Rattle.stim_lines.specs.Header.{inputs_of};
ghost use Rattle.stim_lines.specs.Layouts.{input_widths};
ghost use Rattle.stim_lines.specs.Reading.{is_of_text, line_of};
ghost use Rattle.stimulus.specs.Lines.{IsFrugal, StandsIn};
ghost use Rattle.stimulus.specs.Streaming.{TellsLeft, rows_left};
ghost use Rattle.stimulus.specs.declared.row_step.RowStep.TheVariants as step;
ghost use Rattle.sim_run.specs.Running.{HasRun};
ghost use Rattle.sim_run.specs.Ends.{HasCauses, IfRefused, RowsEndIn};

use crate::row::run_row;
use crate::rows_end::RowsEnd;
use cov_port::{Files, Sink};
use flat_design::Steps;
use sim_output::Output;
use simulator::{CycleEnd, Machine};
use std::sync::ledger::Ledger;
use stim_lines::{Row, StimFault};
use stimulus::{RowStep, StimReader};

/// Reads the next row and runs its cycles, and tells where the rows end by that.
fn run_next<F: Files, S: Sink, L: Ledger>(
    files: &mut F,
    out: &mut S,
    reader: &mut StimReader,
    row: &mut Row,
    machine: &mut Machine<'_>,
    output: &mut Output,
    steps: &mut Steps<L>,
) -> Option<RowsEnd>
    requires sound { IsSound machine.old }
    requires started { machine.old.started ≡ true }
    requires goes { machine.old.end ≡ cycle_end.Goes }
    requires goes_on { reader.old.fault ≡ None }
    requires cycles { reader.old.cycles ≡ machine.old.cycles }
    requires room { length row.old.values ≡ length reader.old.layout.columns }
    requires widths { input_widths reader.old.layout ≡ map (λ i. i.width) (inputs_of machine.old.design.design) }
    ensures ran { IfNone result (HasRun machine.old.design (between machine.old) (between machine.new) (replicate row.new.repeat row.new.values) goes output.old
        output.new (S.written out.old) (S.written out.new)) }
    ensures told { IfNone result (TellsLeft step.Row row.new (rows_left reader.old (F.rest files.old)) (rows_left reader.new (F.rest files.new))) }
    ensures moved { IfNone result (reader.old.cycles < reader.new.cycles) }
    ensures few { reader.new.cycles ≤ 2 ^ 32 }
    ensures going { IfNone result (machine.new.end ≡ cycle_end.Goes) }
    ensures going_on { IfNone result (reader.new.fault ≡ None) }
    ensures counted { IfNone result (reader.new.cycles ≡ machine.new.cycles) }
    ensures room { length row.new.values ≡ length reader.new.layout.columns }
    ensures layout { reader.new.layout ≡ reader.old.layout }
    ensures sound { IsSound machine.new }
    ensures same { SameRun machine.old machine.new }
    ensures started { machine.new.started ≡ true }
    ensures stands { IfNone result ((text : List ℕ) → StandsIn text reader.old.lines (F.rest files.old) → StandsIn text reader.new.lines (F.rest files.new)) }
    ensures quiet { IfNone result (F.faults files.new ≡ F.faults files.old) }
    ensures calm { IfNone result (S.faults out.new ≡ S.faults out.old) }
    ensures end { IfSome result (λ end. RowsEndIn end machine.old.design (between machine.old) (between machine.new) (end_seen machine.new.end)
        (rows_left reader.old (F.rest files.old)) output.old output.new (S.written out.old) (S.written out.new)) }
    ensures of_text { IfSome result (λ end. IfRefused end (λ flaw. is_of_text flaw ≡ true)) }
    ensures frugal { IfSome result (λ end. IfRefused end
        (λ flaw. (text : List ℕ) → StandsIn text reader.old.lines (F.rest files.old) → IfSome (line_of flaw) (λ n. IsFrugal text (F.rest files.new) n))) }
    ensures causes { IfSome result (λ end. HasCauses end (F.faults files.old) (F.faults files.new) (S.faults out.old) (S.faults out.new)) }
    ensures held { F.held files.new ≡ F.held files.old }
{
    match reader.next_row(files, row) {
        Ok(RowStep::Row) => match run_row(out, machine, row, output, steps) {
            Ok(CycleEnd::Goes) => None,
            Ok(end) => Some(RowsEnd::Ended(end)),
            Err(_) => Some(RowsEnd::PutFailed),
        },
        Ok(RowStep::End) => Some(RowsEnd::Ended(CycleEnd::Goes)),
        Err(StimFault::Failed) => Some(RowsEnd::ReadFailed),
        Err(fault) => Some(RowsEnd::Refused(fault)),
    }
}

/// Runs the rows that are left, one after the other, up to the first that sets a flag. Rows behind that aren't read.
pub(crate) fn run_rows<F: Files, S: Sink, L: Ledger>(
    files: &mut F,
    out: &mut S,
    reader: &mut StimReader,
    row: &mut Row,
    machine: &mut Machine<'_>,
    output: &mut Output,
    steps: &mut Steps<L>,
) -> RowsEnd
    requires sound { IsSound machine.old }
    requires started { machine.old.started ≡ true }
    requires goes { machine.old.end ≡ cycle_end.Goes }
    requires goes_on { reader.old.fault ≡ None }
    requires cycles { reader.old.cycles ≡ machine.old.cycles }
    requires room { length row.old.values ≡ length reader.old.layout.columns }
    requires widths { input_widths reader.old.layout ≡ map (λ i. i.width) (inputs_of machine.old.design.design) }
    ensures end { RowsEndIn result machine.old.design (between machine.old) (between machine.new) (end_seen machine.new.end)
        (rows_left reader.old (F.rest files.old)) output.old output.new (S.written out.old) (S.written out.new) }
    ensures of_text { IfRefused result (λ flaw. is_of_text flaw ≡ true) }
    ensures frugal { IfRefused result (λ flaw. (text : List ℕ) → StandsIn text reader.old.lines (F.rest files.old) → IfSome (line_of flaw)
        (λ n. IsFrugal text (F.rest files.new) n)) }
    ensures causes { HasCauses result (F.faults files.old) (F.faults files.new) (S.faults out.old) (S.faults out.new) }
    ensures held { F.held files.new ≡ F.held files.old }
    ensures sound { IsSound machine.new }
    ensures same { SameRun machine.old machine.new }
{
    'rows: loop {
        if let Some(end) = run_next(files, out, reader, row, machine, output, steps) {
            return end;
        }
    }
}
