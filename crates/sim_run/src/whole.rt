//! A whole run.

ghost use Rattle.std.specs.Prelude.{◌≡◌, List, ℕ, true, false, None, Some, length, map, IfSome};
ghost use Rattle.circuit_run.specs.Ends.{goes};
ghost use Rattle.cycle_run.specs.Ends.{end_seen};
ghost use Rattle.simulator.specs.Machines.{IsSound, SameRun};
ghost use Rattle.stim_lines.specs.Header.{inputs_of};
ghost use Rattle.stim_lines.specs.Layouts.{DifferentNames, input_widths};
ghost use Rattle.stim_lines.specs.Reading.{is_of_text, line_of};
ghost use Rattle.stimulus.specs.Lines.{IsFrugal, StandsIn};
ghost use Rattle.stimulus.specs.Streaming.{rows_left};
ghost use Rattle.sim_run.specs.Ends.{HasBegun, HasCauses, HasEnded, IfEnded, IfFailed, IfRefused, IsWhole};

use crate::cycle::run_start;
use crate::rows::run_rows;
use crate::rows_end::RowsEnd;
use cov_port::{Files, Sink};
use design_laws::runs_once;
use flat_design::Steps;
use sim_answer::runs_are_cut;
use sim_output::Output;
use simulator::{CycleEnd, Machine};
use std::sync::ledger::Ledger;
use stim_lines::Row;
use stimulus::StimReader;

/// Runs a machine that is prepared over the rows below the header that was read, and adds its text to the output: the start, and
/// then each row as often as it repeats, up to the first `$finish` or `$stop`. Rows behind that aren't read.
///
/// It takes no memory. What is kept of the output then is the caller's to put, where no call failed.
pub fn run_stimulus<F: Files, S: Sink, L: Ledger>(
    files: &mut F,
    out: &mut S,
    reader: &mut StimReader,
    row: &mut Row,
    machine: &mut Machine<'_>,
    output: &mut Output,
    steps: &mut Steps<L>,
) -> RowsEnd
    requires sound { IsSound machine.old }
    requires first { machine.old.started ≡ false }
    requires goes_on { reader.old.fault ≡ None }
    requires cycles { reader.old.cycles ≡ 0 }
    requires room { length row.old.values ≡ length reader.old.layout.columns }
    requires widths { DifferentNames machine.old.design.design → input_widths reader.old.layout ≡ map (λ i. i.width) (inputs_of machine.old.design.design) }
    // A run on all rows of the stimulus, those behind a flag too.
    ensures ended { IfEnded result (λ end. HasEnded machine.old.design (rows_left reader.old (F.rest files.old)) (end_seen end) machine.new.counts output.old
        output.new (S.written out.old) (S.written out.new)) }
    ensures whole { IfEnded result (λ end. IsWhole end (rows_left reader.old (F.rest files.old))) }

    // A run on the rows before the line that is refused.
    ensures refused { IfRefused result
        (λ flaw. HasEnded machine.old.design (rows_left reader.old (F.rest files.old)) goes machine.new.counts output.old output.new
        (S.written out.old) (S.written out.new)) }
    ensures fault { IfRefused result (λ flaw. IfSome (rows_left reader.old (F.rest files.old)) (λ stim. stim.fault ≡ Some flaw)) }
    ensures of_text { IfRefused result (λ flaw. is_of_text flaw ≡ true) }
    ensures frugal { IfRefused result (λ flaw. (text : List ℕ) → StandsIn text reader.old.lines (F.rest files.old) → IfSome (line_of flaw)
        (λ n. IsFrugal text (F.rest files.new) n)) }

    // A read or a put failed.
    ensures begun { IfFailed result (HasBegun machine.old.design (rows_left reader.old (F.rest files.old)) output.old (S.written out.old) (S.written out.new)) }
    ensures causes { HasCauses result (F.faults files.old) (F.faults files.new) (S.faults out.old) (S.faults out.new) }

    ensures held { F.held files.new ≡ F.held files.old }
    ensures sound { IsSound machine.new }
    ensures same { SameRun machine.old machine.new }
{
    runs_are_cut();
    runs_once();
    match run_start(out, machine, output, steps) {
        Ok(CycleEnd::Goes) => run_rows(files, out, reader, row, machine, output, steps),
        Ok(end) => RowsEnd::Ended(end),
        Err(_) => RowsEnd::PutFailed,
    }
}
