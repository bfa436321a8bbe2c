//! A row with its cycles.

ghost use Rattle.std.specs.Prelude.{◌≡◌, ℕ, ◌≤◌, ◌<◌, ◌+◌, ◌^◌, true, length, slice_index, IfOk, IfErr, OnOk};
ghost use Rattle.stim_lines.specs.Fields.{fields_of};
ghost use Rattle.stim_lines.specs.Layouts.{placed};
ghost use Rattle.stim_lines.specs.Reading.{NamesLine, is_of_text};
ghost use Rattle.stim_lines.specs.Stimulus.{only_fault, with_row};
ghost use Rattle.stim_lines.specs.declared.row.StimText.{StimText};
ghost use Rattle.stimulus.specs.Taking.{row_said};

use cov_port::{NoMemory, Rows};
use std::alloc::Global;
use std::mem;
use stim_lines::{Layout, MOST_CYCLES, Row, StimFault, place_values, read_row};

/// Reads a row behind so many cycles: its values, column by column, and for how many cycles it stands.
pub(crate) fn counted_row(
    number: u64,
    line: &[u8],
    layout: &Layout,
    cells: &mut [u128],
    cycles: u64,
) -> Result<u64, StimFault>
    requires room { length cells.old ≡ length layout.now.widths }
    requires within { cycles ≤ 4294967296 }
    ensures row { IfOk result (λ repeat. (rest : StimText) → row_said layout.now cycles number (fields_of line.now) rest ≡ with_row
        (record { values = placed cells.new layout.now.columns; repeat = repeat }) rest) }
    ensures sum { IfOk result (λ repeat. cycles + repeat ≤ 4294967296) }
    ensures some { IfOk result (λ repeat. 1 ≤ repeat) }
    ensures fit { OnOk result ((k : ℕ) → slice_index cells.new k < 2 ^ slice_index layout.now.widths k) }
    ensures fault { IfErr result (λ flaw. (rest : StimText) → row_said layout.now cycles number (fields_of line.now) rest ≡ only_fault flaw) }
    ensures len { length cells.new ≡ length cells.old }
    ensures line { IfErr result (λ flaw. NamesLine flaw number) }
    ensures of_text { IfErr result (λ flaw. is_of_text flaw ≡ true) }
{
    let repeat = match read_row(number, line, layout.widths.as_slice(), cells) {
        Ok(repeat) => repeat,
        Err(fault) => return Err(fault),
    };
    if cycles + repeat > MOST_CYCLES {
        return Err(StimFault::TooManyCycles(number));
    }
    Ok(repeat)
}

/// Writes the values of the inputs, each from its column, into a row. It takes no memory.
pub(crate) fn put_row(alloc: Global, cells: &[u128], columns: &[usize], repeat: u64, row: &mut Row)
    requires { length row.old.values ≡ length columns.now }
    ensures row { row.new ≡ record { values = placed cells.now columns.now; repeat = repeat } }
    ensures len { length row.new.values ≡ length columns.now }
{
    let mut values = mem::replace(&mut row.values, Rows::new(alloc)).into_vec();
    place_values(cells, columns, values.as_mut_slice());
    row.values = Rows::from_vec(values);
    row.repeat = repeat;
}

/// A row of so many values.
pub(crate) fn empty_row(alloc: Global, len: usize) -> Result<Row, NoMemory>
    ensures { IfOk result (λ row. length row.values ≡ len) }
{
    let values = vec![in alloc; 0u128; len]?;
    Ok(Row {
        values: Rows::from_vec(values),
        repeat: 1,
    })
}
