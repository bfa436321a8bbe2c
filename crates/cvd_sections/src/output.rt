//! Outputs.

ghost use Rattle.std.specs.Prelude.{◌≡◌, ◌≤◌, ◌^◌, ℕ, [], List, length, nat_lt};
ghost use Rattle.cvd_cursor.specs.Numerals.{below};
ghost use Rattle.cvd_cursor.specs.Reads.{Reads};
ghost use Rattle.cvd_text.specs.Sections.{output_line, output_lines};
ghost use Rattle.cvd_sections.specs.Alone.{design_of, marks_alone, row_marks};
ghost use Rattle.cvd_sections.specs.Closing.{Judges};
ghost use Rattle.cvd_sections.specs.Places.{IsLastOf, is_behind};

use crate::ending::close;
use crate::heading::{read_heading, wants_more};
use crate::variable::is_plain;
use cov_types::{Rows, Var};
use cvd_cursor::{Cursor, ReadFault};
use cvd_nodes::number32;
use std::alloc::Global;

/// The outputs of a design over variables, by their numbers.
pub fn read_outputs(
    alloc: Global,
    cursor: &mut Cursor<'_>,
    vars: &[Var],
) -> Result<Rows<u32>, ReadFault>
    requires { length vars.now ≤ 2 ^ 32 }
    ensures { Reads (λ os. marks_alone (output_lines (design_of vars.now [] os))) (λ os held. held ≡ os) cursor.old result cursor.new }
{
    let count = read_heading(cursor, b"outputs")?;
    cursor.end_line(true)?;
    let mut kept = Rows::new(alloc);
    let mut last = None;
    while wants_more(count, kept.len()) {
        let output = read_output(cursor, vars, last)?;
        kept.push(output)?;
        last = Some(output);
    }
    Ok(kept)
}

fn read_output(cursor: &mut Cursor<'_>, vars: &[Var], last: Option<u32>) -> Result<u32, ReadFault>
    requires { length vars.now ≤ 2 ^ 32 }
    ensures { (before : List ℕ) → IsLastOf nat_lt (λ v. v) before last
        → Reads (λ v. row_marks (output_line (design_of vars.now [] []) before v)) (λ v held. held ≡ v) cursor.old result cursor.new }
{
    let var = number32(cursor)?;
    let found = output_of(vars, last, var);
    close(cursor, found)
}

/// A variable of one word, which comes behind the last one.
fn output_of(vars: &[Var], last: Option<u32>, var: Option<u32>) -> Option<u32>
    requires { length vars.now ≤ 2 ^ 32 }
    ensures { (before : List ℕ) (v : ℕ) → IsLastOf nat_lt (λ u. u) before last → var ≡ below (2 ^ 32) v
        → Judges (λ w. (output_line (design_of vars.now [] []) before w).holds) (λ w held. held ≡ w) v result }
{
    let Some(var) = var else {
        return None;
    };
    if !is_plain(vars, var) {
        return None;
    }
    if !is_behind(last, var) {
        return None;
    }
    Some(var)
}

/// Whether a variable comes behind the last one.
fn is_behind(last: Option<u32>, var: u32) -> bool
    ensures { result ≡ is_behind nat_lt last var }
{
    match last {
        Some(last) => last < var,
        None => true,
    }
}
