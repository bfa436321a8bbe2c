//! A row's line.

ghost use Rattle.std.specs.Prelude.{◌≡◌, ℕ, ◌≤◌, ◌<◌, ◌^◌, true, None, Some, length, slice_index, IfOk, IfErr, OnOk};
ghost use Rattle.std.specs.Option.{option_map_or};
ghost use Rattle.stim_lines.specs.Fields.{fields_of};
ghost use Rattle.stim_lines.specs.Layouts as spec;
ghost use Rattle.stim_lines.specs.Reading.{NamesLine, is_of_text};
ghost use Rattle.stim_lines.specs.RowLines.{cycles_of, value_fields};

use crate::fault::StimFault;
use crate::fields::count_fields;
use crate::repeat::{cycles_of, is_repeated};
use crate::values::read_cells;

/// Reads a row, the line with this number: its values, column by column, and for how many cycles it stands. It takes no memory.
///
/// After a fault the cells hold anything.
pub fn read_row(
    number: u64,
    line: &[u8],
    widths: &[u8],
    cells: &mut [u128],
) -> Result<u64, StimFault>
    requires { length cells.old ≡ length widths.now }
    ensures ok { OnOk result (spec.laid_fault widths.now number (fields_of line.now) ≡ None) }
    ensures values { OnOk result (cells.new ≡ spec.cells_of (fields_of line.now)) }
    ensures repeat { IfOk result (λ repeat. repeat ≡ option_map_or (λ n. n) (cycles_of (fields_of line.now)) 1) }
    ensures some { IfOk result (λ repeat. (1 ≤ repeat) × (repeat ≤ 4294967296)) }
    ensures fit { OnOk result ((k : ℕ) → slice_index cells.new k < 2 ^ slice_index widths.now k) }
    ensures fault { IfErr result (λ flaw. spec.laid_fault widths.now number (fields_of line.now) ≡ Some flaw) }
    ensures len { length cells.new ≡ length cells.old }
    ensures line { IfErr result (λ flaw. NamesLine flaw number) }
    ensures of_text { IfErr result (λ flaw. is_of_text flaw ≡ true) }
{
    let Some(repeat) = cycles_of(line) else {
        return Err(StimFault::BadRepeat(number));
    };
    if count_values(line) != widths.len() {
        return Err(StimFault::WrongCount(number));
    }
    match read_cells(number, line, widths, cells) {
        Ok(()) => Ok(repeat),
        Err(fault) => Err(fault),
    }
}

/// How many fields of a line are values.
fn count_values(line: &[u8]) -> usize
    ensures count { result ≡ length (value_fields (fields_of line.now)) }
    ensures within { result ≤ length (fields_of line.now) }
{
    let count = count_fields(line);
    if is_repeated(line) { count - 1 } else { count }
}
