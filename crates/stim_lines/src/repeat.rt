//! For how many cycles a row stands.

ghost use Rattle.std.specs.Prelude.{◌≡◌, ◌≤◌, ◌<◌, ◌∷◌, ◌^◌, length, IfSome};
ghost use Rattle.std.specs.Option.{option_map, option_map_or};
ghost use Rattle.stim_lines.specs.Fields.{fields_of};
ghost use Rattle.stim_lines.specs.RowLines as spec;

use crate::fields::cut_field;
use cov_port::read_dec;

/// The greatest number of cycles.
pub const MOST_CYCLES: u64 = 4_294_967_296;

/// The last field of a line, if it has one.
fn last_field(line: &[u8]) -> Option<&[u8]>
    ensures { option_map (λ field. field.now) result ≡ spec.last_field (fields_of line.now) }
{
    let first = cut_field(line)?;
    let mut last = first.field;
    let mut rest = first.rest;
    while let Some(cut) = cut_field(rest) {
        last = cut.field;
        rest = cut.rest;
    }
    Some(last)
}

fn begins_with_x(field: &[u8]) -> bool
    ensures { result ≡ spec.begins_with_x field.now }
{
    match field {
        [] => false,
        [first, ..] => *first == b'x',
    }
}

/// The number of cycles behind an `x`.
fn cycles_in(field: &[u8]) -> Option<u64>
    ensures { result ≡ spec.cycles_in field.now }
{
    let [_, digits @ ..] = field else {
        return None;
    };
    match read_dec(digits, MOST_CYCLES) {
        Some(0) => None,
        cycles => cycles,
    }
}

/// Whether the last field of a line stands for a number of cycles.
pub(crate) fn is_repeated(line: &[u8]) -> bool
    ensures { result ≡ spec.is_repeated (fields_of line.now) }
{
    match last_field(line) {
        None => false,
        Some(field) => begins_with_x(field),
    }
}

/// The number of cycles of a row: 1, unless its last field stands for it.
pub(crate) fn cycles_of(line: &[u8]) -> Option<u64>
    ensures { result ≡ spec.cycles_of (fields_of line.now) }
{
    match last_field(line) {
        None => Some(1),
        Some(field) => {
            if begins_with_x(field) {
                cycles_in(field)
            } else {
                Some(1)
            }
        }
    }
}
