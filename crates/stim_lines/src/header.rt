//! The header line of a stimulus.

ghost use Rattle.std.specs.Prelude.{◌≡◌, true, None, Some, [], length, map, IfOk, IfErr, IfSome, OnOk};
ghost use Rattle.stim_lines.specs.Fields.{fields_of};
ghost use Rattle.stim_lines.specs.Header as spec;
ghost use Rattle.stim_lines.specs.Layouts.{DifferentNames, LaysOut, input_widths};
ghost use Rattle.stim_lines.specs.Reading.{NamesLine, is_of_text};

use crate::fault::StimFault;
use crate::fields::cut_field;
use crate::layout::{Layout, lay_out};
use crate::names::{all_named, is_earlier, is_input};
use cov_types::NoMemory;
use design_tree::Design;
use std::alloc::Global;

/// Reads the header, the line with this number: the names of the design's inputs, each once.
pub fn read_header(
    alloc: Global,
    number: u64,
    line: &[u8],
    design: &Design,
) -> Result<Layout, StimFault>
    ensures ok { OnOk result (spec.header_fault (spec.inputs_of design.now) number (fields_of line.now) ≡ None) }
    ensures rows { IfOk result (λ layout. LaysOut layout (spec.inputs_of design.now) (fields_of line.now)) }
    ensures as_many { IfOk result (λ layout. length layout.columns ≡ length design.now.inputs) }
    ensures widths { IfOk result (λ layout. DifferentNames design.now → input_widths layout ≡ map (λ i. i.width) (spec.inputs_of design.now)) }
    ensures fault { IfErr result (λ flaw. is_of_text flaw ≡ true → spec.header_fault (spec.inputs_of design.now) number (fields_of line.now) ≡ Some flaw) }
    ensures line { IfErr result (λ flaw. NamesLine flaw number) }
    ensures no_failure { IfErr result (λ flaw. flaw ≡ StimFault.Failed → ⊥) }
    ensures of_text { IfErr result (λ flaw. (flaw ≡ StimFault.NoMemory → ⊥) → is_of_text flaw ≡ true) }
{
    if let Some(fault) = header_fault(number, line, design) {
        return Err(fault);
    }
    match lay_out(alloc, line, design) {
        Ok(layout) => Ok(layout),
        Err(NoMemory) => Err(StimFault::NoMemory),
    }
}

/// What is wrong with a header.
fn header_fault(number: u64, line: &[u8], design: &Design) -> Option<StimFault>
    ensures value { result ≡ spec.header_fault (spec.inputs_of design.now) number (fields_of line.now) }
    ensures line { IfSome result (λ flaw. NamesLine flaw number) }
    ensures of_text { IfSome result (λ flaw. is_of_text flaw ≡ true) }
{
    if let Some(fault) = fields_fault(number, line, design) {
        return Some(fault);
    }
    if all_named(line, design) {
        return None;
    }
    Some(StimFault::MissingInput(number))
}

/// The fault of the leftmost wrong field.
fn fields_fault(number: u64, line: &[u8], design: &Design) -> Option<StimFault>
    ensures value { result ≡ spec.fields_fault (spec.inputs_of design.now) number [] (fields_of line.now) }
    ensures line { IfSome result (λ flaw. NamesLine flaw number) }
    ensures of_text { IfSome result (λ flaw. is_of_text flaw ≡ true) }
{
    let mut before = 0;
    let mut rest = line;
    while let Some(cut) = cut_field(rest) {
        if !is_input(design, cut.field) {
            return Some(StimFault::UnknownInput(number));
        }
        if is_earlier(line, before, cut.field) {
            return Some(StimFault::RepeatedInput(number));
        }
        before += 1;
        rest = cut.rest;
    }
    None
}
