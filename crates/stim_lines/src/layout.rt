//! What the rows below a header are read by.

ghost use Rattle.std.specs.Prelude.{◌≡◌, map, IfOk};
ghost use Rattle.stim_lines.specs.Fields.{fields_of};
ghost use Rattle.stim_lines.specs.Header.{inputs_of};
ghost use Rattle.stim_lines.specs.Layouts as spec;
ghost use Rattle.stim_lines.specs.RowLines.{width_of};

use crate::fields::cut_field;
use crate::names::{column_of, width_of};
use cov_types::{NoMemory, Rows};
use design_tree::{Design, Input};
use std::alloc::Global;

/// What the rows below a header are read by: the width of each column, and the column of each input of the design.
#[derive(Debug, Drop)]
pub struct Layout {
    pub widths: Rows<u8>,
    pub columns: Rows<usize>,
}

/// The layout below this header.
pub(crate) fn lay_out(alloc: Global, line: &[u8], design: &Design) -> Result<Layout, NoMemory>
    ensures { IfOk result (λ layout. layout ≡ spec.layout_of (inputs_of design.now) (fields_of line.now)) }
{
    let widths = widths(alloc, line, design)?;
    let columns = columns(alloc, line, design.inputs.as_slice())?;
    Ok(Layout { widths, columns })
}

/// The width of each column.
fn widths(alloc: Global, line: &[u8], design: &Design) -> Result<Rows<u8>, NoMemory>
    ensures { IfOk result (λ widths. widths ≡ map (width_of (inputs_of design.now)) (fields_of line.now)) }
{
    let mut widths = Rows::new(alloc);
    let mut rest = line;
    while let Some(cut) = cut_field(rest) {
        widths.push(width_of(design, cut.field))?;
        rest = cut.rest;
    }
    Ok(widths)
}

/// The column of each input.
fn columns(alloc: Global, line: &[u8], inputs: &[Input]) -> Result<Rows<usize>, NoMemory>
    ensures { IfOk result (λ columns. columns ≡ map (λ i. spec.column_of (fields_of line.now) i.name) inputs.now) }
{
    let mut columns = Rows::new(alloc);
    for input in inputs {
        columns.push(column_of(line, input.name.as_slice()))?;
    }
    Ok(columns)
}
