//! The values of a row.

ghost use Rattle.std.specs.Prelude.{◌≡◌, ◌≤◌, ◌<◌, ◌^◌, true, None, Some, length, map, nat_lt, slice_index, take, zip, IfOk, IfErr, OnOk};
ghost use Rattle.stim_lines.specs.Fields.{fields_of};
ghost use Rattle.stim_lines.specs.Layouts as spec;
ghost use Rattle.stim_lines.specs.Reading.{NamesLine, is_of_text};

use crate::fault::StimFault;
use crate::fields::cut_field;
use cov_port::read_hex;

/// Reads the first fields of a line as the values of columns of these widths.
pub(crate) fn read_cells(
    number: u64,
    line: &[u8],
    widths: &[u8],
    cells: &mut [u128],
) -> Result<(), StimFault>
    requires enough { length widths.now ≤ length (fields_of line.now) }
    requires room { length cells.old ≡ length widths.now }
    ensures ok { OnOk result (spec.cells_fault number (zip widths.now (fields_of line.now)) ≡ None) }
    ensures values { OnOk result (cells.new ≡ take (length widths.now) (map spec.cell_value (fields_of line.now))) }
    ensures fault { IfErr result (λ flaw. spec.cells_fault number (zip widths.now (fields_of line.now)) ≡ Some flaw) }
    ensures len { length cells.new ≡ length cells.old }
    ensures line { IfErr result (λ flaw. NamesLine flaw number) }
    ensures of_text { IfErr result (λ flaw. is_of_text flaw ≡ true) }
{
    let mut rest = line;
    for (at, width) in widths.iter().enumerate() {
        let Some(cut) = cut_field(rest) else {
            unreachable!();
        };
        match read_cell(number, cut.field, *width) {
            Ok(value) => cells[at] = value,
            Err(fault) => return Err(fault),
        }
        rest = cut.rest;
    }
    Ok(())
}

/// Reads one value for a column of this width.
fn read_cell(number: u64, field: &[u8], width: u8) -> Result<u128, StimFault>
    ensures ok { OnOk result (spec.cell_fault number (width, field.now) ≡ None) }
    ensures value { IfOk result (λ value. value ≡ spec.cell_value field.now) }
    ensures fault { IfErr result (λ flaw. spec.cell_fault number (width, field.now) ≡ Some flaw) }
    ensures line { IfErr result (λ flaw. NamesLine flaw number) }
    ensures of_text { IfErr result (λ flaw. is_of_text flaw ≡ true) }
{
    match read_hex(field) {
        None => Err(StimFault::BadValue(number)),
        Some(value) => {
            if fits(value, width) {
                Ok(value)
            } else {
                Err(StimFault::TooWide(number))
            }
        }
    }
}

/// Whether a value has no more bits than this.
fn fits(value: u128, width: u8) -> bool
    ensures { result ≡ nat_lt value (2 ^ width) }
{
    if width >= 128 {
        return true;
    }
    value < 1u128 << width
}

/// Puts the values of the inputs in their places, each from its column.
pub fn place_values(cells: &[u128], columns: &[usize], values: &mut [u128])
    requires { length values.old ≡ length columns.now }
    ensures { values.new ≡ spec.placed cells.now columns.now }
{
    for (at, column) in columns.iter().enumerate() {
        values[at] = cell_at(cells, *column);
    }
}

fn cell_at(cells: &[u128], column: usize) -> u128
    ensures { result ≡ slice_index cells.now column }
{
    match cells.get(column) {
        Some(cell) => *cell,
        None => 0,
    }
}
