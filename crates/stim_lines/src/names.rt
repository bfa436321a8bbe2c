//! The names of inputs among the fields of a header.

ghost use Rattle.std.specs.Prelude.{◌≡◌, find, slice_get, take};
ghost use Rattle.std.specs.List.{list_all, list_any};
ghost use Rattle.std.specs.Option.{option_copied, option_map_or};
ghost use Rattle.std.specs.Str.{bytes_eq};
ghost use Rattle.stim_lines.specs.Fields.{fields_of};
ghost use Rattle.stim_lines.specs.Header as spec;
ghost use Rattle.stim_lines.specs.Layouts.{column_of};
ghost use Rattle.stim_lines.specs.RowLines.{width_of};

use crate::fields::cut_field;
use cov_types::Var;
use design_tree::{Design, Input};

/// Whether an input has this name.
pub(crate) fn is_input(design: &Design, field: &[u8]) -> bool
    ensures { result ≡ spec.is_among (spec.names_of (spec.inputs_of design.now)) field.now }
{
    has_name(design.inputs.as_slice(), field)
}

fn has_name(inputs: &[Input], field: &[u8]) -> bool
    ensures { result ≡ list_any (λ i. bytes_eq field.now i.name) inputs.now }
{
    inputs.iter().any(|input| field == input.name.as_slice())
}

/// Whether a field of the line is this name.
fn is_field(line: &[u8], name: &[u8]) -> bool
    ensures { result ≡ spec.is_among (fields_of line.now) name.now }
{
    let mut rest = line;
    while let Some(cut) = cut_field(rest) {
        if name == cut.field {
            return true;
        }
        rest = cut.rest;
    }
    false
}

/// Whether one of the first fields of the line, as many as `count`, is this name.
pub(crate) fn is_earlier(line: &[u8], count: usize, name: &[u8]) -> bool
    ensures { result ≡ spec.is_among (take count (fields_of line.now)) name.now }
{
    let mut rest = line;
    let mut left = count;
    while left > 0 {
        let Some(cut) = cut_field(rest) else {
            return false;
        };
        if name == cut.field {
            return true;
        }
        left -= 1;
        rest = cut.rest;
    }
    false
}

/// Whether the fields of the line name each input.
pub(crate) fn all_named(line: &[u8], design: &Design) -> bool
    ensures { result ≡ list_all (spec.is_among (fields_of line.now)) (spec.names_of (spec.inputs_of design.now)) }
{
    are_fields(line, design.inputs.as_slice())
}

fn are_fields(line: &[u8], inputs: &[Input]) -> bool
    ensures { result ≡ list_all (λ i. spec.is_among (fields_of line.now) i.name) inputs.now }
{
    for input in inputs {
        if !is_field(line, input.name.as_slice()) {
            return false;
        }
    }
    true
}

/// The number of the first field that is this name, from 0, or the number of fields where none is.
pub(crate) fn column_of(line: &[u8], name: &[u8]) -> usize
    ensures { result ≡ column_of (fields_of line.now) name.now }
{
    let mut column = 0;
    let mut rest = line;
    while let Some(cut) = cut_field(rest) {
        if cut.field == name {
            return column;
        }
        column += 1;
        rest = cut.rest;
    }
    column
}

/// The width of the first input with this name, or 0 where none has it.
pub(crate) fn width_of(design: &Design, name: &[u8]) -> u8
    ensures { result ≡ width_of (spec.inputs_of design.now) name.now }
{
    match input_named(design.inputs.as_slice(), name) {
        Some(input) => var_width(design.vars.as_slice(), input.var),
        None => 0,
    }
}

fn input_named<'a>(inputs: &'a [Input], name: &[u8]) -> Option<&'a Input>
    ensures { option_copied result ≡ find (λ i. bytes_eq i.name name.now) inputs.now }
{
    inputs.iter().find(|input| input.name.as_slice() == name)
}

fn var_width(vars: &[Var], var: u32) -> u8
    ensures { result ≡ option_map_or (λ v. v.width) (slice_get vars.now var) 0 }
{
    match vars.get(var as usize) {
        Some(var) => var.width,
        None => 0,
    }
}
