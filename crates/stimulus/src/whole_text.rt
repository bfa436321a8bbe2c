ghost use Rattle.std.specs.Prelude.{◌≡◌, ◌≤◌, ◌+◌, Ok, Err, true, length, IfOk, IfErr};
ghost use Rattle.stim_lines.specs.Fields.{fields_of};
ghost use Rattle.stim_lines.specs.Header.{inputs_of};
ghost use Rattle.stim_lines.specs.Layouts.{rows_laid};
ghost use Rattle.stim_lines.specs.Reading.{is_of_text};
ghost use Rattle.stim_lines.specs.Stimulus.{only_fault, stimulus_of, with_row};
ghost use Rattle.stim_lines.specs.declared.fault.StimFault.TheVariants as fault;
ghost use Rattle.stim_lines.specs.declared.row.StimText.{StimText};
ghost use Rattle.stimulus.specs.Taking.{row_said};

use crate::counted::{counted_row, empty_row, put_row};
use crate::text_lines::TextLines;
use cov_port::{NoMemory, Rows};
use design_tree::Design;
use std::alloc::Global;
use stim_lines::{Layout, Row, StimFault, StimText, read_header};

/// The rows of a stimulus text, up to the first line that is none.
pub fn read_stim(alloc: Global, text: &[u8], design: &Design) -> Result<StimText, StimFault>
    ensures ok { IfOk result (λ stim. stimulus_of (inputs_of design.now) text.now ≡ Ok stim) }
    ensures fault { IfErr result (λ flaw. is_of_text flaw ≡ true → stimulus_of (inputs_of design.now) text.now ≡ Err flaw) }
    ensures no_failure { IfErr result (λ flaw. flaw ≡ fault.Failed → ⊥) }
{
    let mut lines = TextLines::new(text);
    let header = match lines.next_spoken() {
        Ok(Some(line)) => line,
        Ok(None) => return Err(StimFault::BadHeader(1)),
        Err(fault) => return Err(fault),
    };
    let layout = match read_header(alloc, lines.number(), header, design) {
        Ok(layout) => layout,
        Err(fault) => return Err(fault),
    };
    match rows(alloc, lines, &layout) {
        Ok(stim) => Ok(stim),
        Err(NoMemory) => Err(StimFault::NoMemory),
    }
}

/// The rows of these lines, and the first fault.
fn rows(alloc: Global, lines: TextLines<'_>, layout: &Layout) -> Result<StimText, NoMemory>
    ensures { IfOk result (λ stim. stim ≡ rows_laid layout.now 0 lines.entry.said) }
{
    let mut lines = lines;
    let mut cells = vec![in alloc; 0u128; layout.widths.len()]?;
    let mut rows = Rows::new(alloc);
    let mut cycles = 0;
    'rows: loop {
        let line = match lines.next_spoken() {
            Ok(Some(line)) => line,
            Ok(None) => return Ok(StimText { rows, fault: None }),
            Err(fault) => {
                return Ok(StimText {
                    rows,
                    fault: Some(fault),
                });
            }
        };
        match text_row(
            alloc,
            lines.number(),
            line,
            layout,
            cells.as_mut_slice(),
            cycles,
        ) {
            Ok(row) => {
                cycles += row.repeat;
                rows.push(row)?;
            }
            Err(StimFault::NoMemory) => return Err(NoMemory),
            Err(fault) => {
                return Ok(StimText {
                    rows,
                    fault: Some(fault),
                });
            }
        }
    }
}

/// The row that a line is, behind so many cycles.
fn text_row(
    alloc: Global,
    number: u64,
    line: &[u8],
    layout: &Layout,
    cells: &mut [u128],
    cycles: u64,
) -> Result<Row, StimFault>
    requires room { length cells.old ≡ length layout.now.widths }
    requires within { cycles ≤ 4294967296 }
    ensures row { IfOk result (λ row. (rest : StimText) → row_said layout.now cycles number (fields_of line.now) rest ≡ with_row row rest) }
    ensures sum { IfOk result (λ row. cycles + row.repeat ≤ 4294967296) }
    ensures fault { IfErr result (λ flaw. (flaw ≡ fault.NoMemory → ⊥) → (rest : StimText) → row_said layout.now cycles number (fields_of line.now) rest ≡
        only_fault flaw) }
    ensures len { length cells.new ≡ length cells.old }
    ensures no_failure { IfErr result (λ flaw. flaw ≡ fault.Failed → ⊥) }
{
    let repeat = match counted_row(number, line, layout, cells, cycles) {
        Ok(repeat) => repeat,
        Err(fault) => return Err(fault),
    };
    match empty_row(alloc, layout.columns.len()) {
        Ok(row) => {
            let mut row = row;
            put_row(alloc, cells, layout.columns.as_slice(), repeat, &mut row);
            Ok(row)
        }
        Err(NoMemory) => Err(StimFault::NoMemory),
    }
}
