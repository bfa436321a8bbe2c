ghost use Rattle.std.specs.Prelude.{◌≡◌, ◌≤◌, ◌+◌, ◌^◌, List, ℕ, true, None, Some, Err, length, map, vec_len, IfOk, IfErr, IfSome, IsErrOf, OnOk, OnErr};
ghost use Rattle.cov_port.specs.Files.{ReadsRose};
ghost use Rattle.stim_lines.specs.Fields.{fields_of};
ghost use Rattle.stim_lines.specs.Header.{header_fault, inputs_of};
ghost use Rattle.stim_lines.specs.Layouts.{DifferentNames, FitsLayout, LaysOut, input_widths};
ghost use Rattle.stim_lines.specs.Reading.{NamesLine, is_of_text, line_of};
ghost use Rattle.stim_lines.specs.Stimulus.{only_fault, stimulus_of, with_row};
ghost use Rattle.stim_lines.specs.declared.fault.StimFault.TheVariants as fault;
ghost use Rattle.stim_lines.specs.declared.row.StimText.{StimText};
ghost use Rattle.stimulus.specs.Lines.{IsFrugal, StandsIn, heard_left};
ghost use Rattle.stimulus.specs.Streaming.{CountsCycles, FaultOf, HasRow, IsStarted, ReadFailedBy, TellsLeft, rows_left};
ghost use Rattle.stimulus.specs.Taking.{row_said};

use crate::counted::{counted_row, empty_row, put_row};
use crate::row_step::RowStep;
use crate::spoken_lines::SpokenLines;
use cov_port::{Files, NoMemory};
use design_tree::Design;
use std::alloc::Global;
use std::marker::Model;
use stim_lines::{Layout, Row, StimFault, read_header};

/// Reads the rows of an open stimulus one after the other, line by line.
///
/// Contracts see its lines, what its rows are read by, the cycles of the rows so far, and the
/// fault that it has met, which every later call answers again.
#[derive(Drop)]
pub struct StimReader {
    lines: SpokenLines,
    layout: Layout,
    // The values of a row, column by column.
    cells: Vec<u128>,
    cycles: u64,
    fault: Option<StimFault>,
    alloc: Global,
}

impl Model for StimReader {
    ghost use Rattle.std.specs.Prelude.{◌≡◌, ◌≤◌, length, vec_len};
    ghost use Rattle.stimulus.specs.Streaming.{ReaderState};
    ghost use Rattle.stimulus.specs.Taking.{FollowsFault};

    ghost Value = { ReaderState };

    ghost view = { λ r. record { lines = r.lines; layout = r.layout; cycles = r.cycles; fault = r.fault } };

    ghost invariant = { λ r. (vec_len r.cells ≡ length r.layout.widths) × (r.cycles ≤ 4294967296) × FollowsFault r.fault r.lines.cutter.fault };
}

impl StimReader {
    /// Reads the header of the open stimulus, and makes a row of as many values as the design has inputs.
    ///
    /// All memory that the rows need is taken here.
    pub fn header<F: Files>(
        alloc: Global,
        files: &mut F,
        design: &Design,
    ) -> Result<(StimReader, Row), StimFault>
        // The whole stimulus, or the fault at or before its header.
        ensures rows { IfOk result (λ made. IsStarted design.now (F.rest files.old) made.0 (F.rest files.new)) }
        ensures fault { IfErr result (λ flaw. is_of_text flaw ≡ true → IfSome (F.rest files.old) (λ text. stimulus_of (inputs_of design.now) text ≡ Err flaw)) }
        ensures of_text { IfErr result (λ flaw. (flaw ≡ fault.Failed → ⊥) → (flaw ≡ fault.NoMemory → ⊥) → is_of_text flaw ≡ true) }
        ensures goes_on { IfOk result (λ made. made.0.fault ≡ None) }
        ensures first { IfOk result (λ made. made.0.cycles ≡ 0) }
        ensures room { IfOk result (λ made. length made.1.values ≡ length made.0.layout.columns) }
        ensures as_many { IfOk result (λ made. length made.0.layout.columns ≡ length design.now.inputs) }
        ensures widths { IfOk result (λ made. DifferentNames design.now → input_widths made.0.layout ≡ map (λ i. i.width) (inputs_of design.now)) }

        // How much is taken of a file whose bytes are told.
        ensures stands { IfOk result (λ made. IfSome (F.rest files.old) (λ text. StandsIn text made.0.lines (F.rest files.new))) }
        ensures frugal { IfErr result (λ flaw. IfSome (F.rest files.old) (λ text. IfSome (line_of flaw) (λ n. IsFrugal text (F.rest files.new) n))) }

        // Each fault of a call has its cause, and nothing else raises a number.
        ensures held { F.held files.new ≡ F.held files.old }
        ensures ok_quiet { OnOk result (F.faults files.new ≡ F.faults files.old) }
        ensures fault_quiet { IfErr result (λ flaw. (flaw ≡ fault.Failed → ⊥) → F.faults files.new ≡ F.faults files.old) }
        ensures failed { IsErrOf result fault.Failed → ReadsRose (F.faults files.old) (F.faults files.new) }
    {
        let mut lines = match SpokenLines::new(alloc) {
            Ok(lines) => lines,
            Err(NoMemory) => return Err(StimFault::NoMemory),
        };
        match lines.next_spoken(files) {
            Ok(true) => start(alloc, lines, design),
            Ok(false) => Err(StimFault::BadHeader(1)),
            Err(fault) => Err(fault),
        }
    }

    /// Reads the next row of the open stimulus, or tells that its end is reached. It takes no memory.
    ///
    /// A row that is refused, and the end, leave the row as it was given.
    pub fn next_row<F: Files>(&mut self, files: &mut F, row: &mut Row) -> Result<RowStep, StimFault>
        requires { length row.old.values ≡ length self.old.layout.columns }
        // The rows of what is left, one after the other, and the first fault.
        ensures step { IfOk result (λ step. TellsLeft step row.new (rows_left self.old (F.rest files.old)) (rows_left self.new (F.rest files.new))) }
        ensures row { IfOk result (λ step. HasRow step self.new.layout row.old row.new) }
        ensures room { length row.new.values ≡ length self.new.layout.columns }
        ensures fault { IfErr result (λ flaw. FaultOf (rows_left self.old (F.rest files.old)) flaw) }
        ensures of_text { IfErr result (λ flaw. self.old.fault ≡ None → (flaw ≡ fault.Failed → ⊥) → is_of_text flaw ≡ true) }
        ensures counted { IfOk result (λ step. CountsCycles step row.new self.old.cycles self.new.cycles) }
        ensures few { self.new.cycles ≤ 2 ^ 32 }
        ensures layout { self.new.layout ≡ self.old.layout }
        ensures goes_on { OnOk result (self.new.fault ≡ None) }

        // A fault is answered again by every later call, and then no call is made on the files.
        ensures stays { IfErr result (λ flaw. self.new.fault ≡ Some flaw) }
        ensures nothing { OnErr result (row.new ≡ row.old) }
        ensures again { IfSome self.old.fault (λ flaw. (result ≡ Err flaw) × (files.new ≡ files.old)) }
        ensures no_memory { IsErrOf result fault.NoMemory → ⊥ }

        // How much is taken of a file whose bytes are told.
        ensures stands { OnOk result ((text : List ℕ) → StandsIn text self.old.lines (F.rest files.old) → StandsIn text self.new.lines (F.rest files.new)) }
        ensures frugal { IfErr result (λ flaw. self.old.fault ≡ None → (text : List ℕ) → StandsIn text self.old.lines (F.rest files.old) → IfSome (line_of flaw)
            (λ n. IsFrugal text (F.rest files.new) n)) }

        // Each fault of a call has its cause, and nothing else raises a number.
        ensures held { F.held files.new ≡ F.held files.old }
        ensures ok_quiet { OnOk result (F.faults files.new ≡ F.faults files.old) }
        ensures fault_quiet { IfErr result (λ flaw. (flaw ≡ fault.Failed → ⊥) → F.faults files.new ≡ F.faults files.old) }
        ensures failed { IsErrOf result fault.Failed → ReadFailedBy self.old.fault (F.faults files.old) (F.faults files.new) }
    {
        if let Some(fault) = self.fault {
            return Err(fault);
        }
        match self.lines.next_spoken(files) {
            Ok(true) => self.tell(row),
            Ok(false) => Ok(RowStep::End),
            Err(fault) => {
                self.fault = Some(fault);
                Err(fault)
            }
        }
    }

    /// Tells the row that the line that was given is.
    fn tell(&mut self, row: &mut Row) -> Result<RowStep, StimFault>
        requires room { length row.old.values ≡ length self.old.layout.columns }
        requires no_fault { self.old.fault ≡ None }
        ensures step { IfOk result (λ step. step ≡ RowStep.Row) }
        ensures row { OnOk result ((rest : StimText) → row_said self.old.layout self.old.cycles self.old.lines.number (fields_of self.old.lines.cutter.line)
            rest ≡
            with_row row.new rest) }
        ensures new { OnOk result (self.new ≡ record self.old { cycles = self.old.cycles + row.new.repeat }) }
        ensures fit { OnOk result (FitsLayout self.old.layout row.new) }
        ensures len { length row.new.values ≡ length self.old.layout.columns }
        ensures few { self.new.cycles ≤ 4294967296 }
        ensures fault { IfErr result (λ flaw. (rest : StimText) → row_said self.old.layout self.old.cycles self.old.lines.number
            (fields_of self.old.lines.cutter.line)
            rest ≡ only_fault flaw) }
        ensures stays { IfErr result (λ flaw. self.new ≡ record self.old { fault = Some flaw }) }
        ensures nothing { OnErr result (row.new ≡ row.old) }
        ensures line { IfErr result (λ flaw. NamesLine flaw self.old.lines.number) }
        ensures of_text { IfErr result (λ flaw. is_of_text flaw ≡ true) }
    {
        match self.read(row) {
            Ok(()) => Ok(RowStep::Row),
            Err(fault) => {
                self.fault = Some(fault);
                Err(fault)
            }
        }
    }

    /// Reads the line that was given as a row.
    fn read(&mut self, row: &mut Row) -> Result<(), StimFault>
        requires room { length row.old.values ≡ length self.old.layout.columns }
        ensures row { OnOk result ((rest : StimText) → row_said self.old.layout self.old.cycles self.old.lines.number (fields_of self.old.lines.cutter.line)
            rest ≡
            with_row row.new rest) }
        ensures new { OnOk result (self.new ≡ record self.old { cycles = self.old.cycles + row.new.repeat }) }
        ensures fit { OnOk result (FitsLayout self.old.layout row.new) }
        ensures len { length row.new.values ≡ length self.old.layout.columns }
        ensures few { self.new.cycles ≤ 4294967296 }
        ensures fault { IfErr result (λ flaw. (rest : StimText) → row_said self.old.layout self.old.cycles self.old.lines.number
            (fields_of self.old.lines.cutter.line)
            rest ≡ only_fault flaw) }
        ensures stays { OnErr result (self.new ≡ self.old) }
        ensures nothing { OnErr result (row.new ≡ row.old) }
        ensures line { IfErr result (λ flaw. NamesLine flaw self.old.lines.number) }
        ensures of_text { IfErr result (λ flaw. is_of_text flaw ≡ true) }
    {
        let repeat = match counted_row(
            self.lines.number(),
            self.lines.line(),
            &self.layout,
            self.cells.as_mut_slice(),
            self.cycles,
        ) {
            Ok(repeat) => repeat,
            Err(fault) => return Err(fault),
        };
        self.cycles += repeat;
        put_row(
            self.alloc,
            self.cells.as_slice(),
            self.layout.columns.as_slice(),
            repeat,
            row,
        );
        Ok(())
    }
}

/// A reader of the rows below the header that was given.
fn start(alloc: Global, lines: SpokenLines, design: &Design) -> Result<(StimReader, Row), StimFault>
    requires { lines.cutter.fault ≡ None }
    ensures ok { OnOk result (header_fault (inputs_of design.now) lines.number (fields_of lines.cutter.line) ≡ None) }
    ensures rows { IfOk result (λ made. LaysOut made.0.layout (inputs_of design.now) (fields_of lines.cutter.line)) }
    ensures new { IfOk result (λ made. made.0 ≡ record { lines = lines; layout = made.0.layout; cycles = 0; fault = None }) }
    ensures room { IfOk result (λ made. length made.1.values ≡ length made.0.layout.columns) }
    ensures as_many { IfOk result (λ made. length made.0.layout.columns ≡ length design.now.inputs) }
    ensures widths { IfOk result (λ made. DifferentNames design.now → input_widths made.0.layout ≡ map (λ i. i.width) (inputs_of design.now)) }
    ensures fault { IfErr result (λ flaw. is_of_text flaw ≡ true → header_fault (inputs_of design.now) lines.number (fields_of lines.cutter.line) ≡ Some flaw) }
    ensures line { IfErr result (λ flaw. NamesLine flaw lines.number) }
    ensures no_failure { IfErr result (λ flaw. flaw ≡ fault.Failed → ⊥) }
    ensures of_text { IfErr result (λ flaw. (flaw ≡ fault.NoMemory → ⊥) → is_of_text flaw ≡ true) }
{
    let layout = match read_header(alloc, lines.number(), lines.line(), design) {
        Ok(layout) => layout,
        Err(fault) => return Err(fault),
    };
    match reader(alloc, lines, layout) {
        Ok(made) => Ok(made),
        Err(NoMemory) => Err(StimFault::NoMemory),
    }
}

/// A reader that has read no row, with a row of as many values as there are inputs.
fn reader(alloc: Global, lines: SpokenLines, layout: Layout) -> Result<(StimReader, Row), NoMemory>
    requires { lines.cutter.fault ≡ None }
    ensures new { IfOk result (λ made. made.0 ≡ record { lines = lines; layout = layout; cycles = 0; fault = None }) }
    ensures room { IfOk result (λ made. length made.1.values ≡ length layout.columns) }
{
    let cells = vec![in alloc; 0u128; layout.widths.len()]?;
    let row = empty_row(alloc, layout.columns.len())?;
    let reader = StimReader {
        lines,
        layout,
        cells,
        cycles: 0,
        fault: None,
        alloc,
    };
    Ok((reader, row))
}
