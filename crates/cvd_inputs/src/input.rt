//! Inputs.

ghost use Rattle.std.specs.Prelude.{◌≡◌, ◌≤◌, ◌^◌, ◌+◌, ◌==◌, ◌||◌, [], ◌∷◌, ◌++◌, ◌<◌, List, ℕ, Some, length, nat_lt};
ghost use Rattle.cvd_cursor.specs.Numerals.{below};
ghost use Rattle.cvd_cursor.specs.Reads.{Reads};
ghost use Rattle.cvd_text.specs.Sections.{input_line, input_lines, input_numbers};
ghost use Rattle.design_tree.specs.declared.design.Input.{Input};
ghost use Rattle.cvd_sections.specs.Alone.{design_of, marks_alone, row_marks};
ghost use Rattle.cvd_sections.specs.Closing.{Judges};
ghost use Rattle.cvd_sections.specs.Places.{is_behind};
ghost use Rattle.cvd_inputs.specs.Names.{AreSeen, may_be_input};

use crate::count::count_inputs;
use crate::name::{add_name, has_name, is_name, read_name};
use cov_types::{ByteText, Rows, Var};
use cvd_cursor::{Cursor, ReadFault};
use cvd_nodes::number32;
use cvd_sections::{close, is_input, read_heading, wants_more};
use design_tree::Input;
use std::alloc::Global;
use std::collections::BTreeMap;

/// The inputs of a design over variables: all input variables, with their names.
pub fn read_inputs<'a>(
    alloc: Global,
    cursor: &mut Cursor<'a>,
    vars: &[Var],
) -> Result<Rows<Input>, ReadFault>
    requires { length vars.now ≤ 2 ^ 32 }
    ensures { Reads (λ is. marks_alone (input_lines (design_of vars.now is []))) (λ is held. held ≡ is) cursor.old result cursor.new }
{
    let count = read_heading(cursor, b"inputs")?;
    let all = count_inputs(vars);
    cursor.end_line(may_be(count, all))?;
    let mut kept: Rows<Input> = Rows::new(alloc);
    let mut last = None;
    let mut names = BTreeMap::new(alloc);
    'inputs: while wants_more(count, kept.len()) {
        let may_stand = may_stand(count, kept.len(), all);
        let next = read_input(alloc, cursor, vars, last, &mut names, may_stand)?;
        last = Some(next.var);
        kept.push(next)?;
    }
    Ok(kept)
}

/// Whether there may be so many inputs where so many variables are inputs: with none of them no line follows.
fn may_be(count: Option<u64>, all: usize) -> bool
    ensures { (n : ℕ) → count ≡ below (2 ^ 64) n → result ≡ (nat_lt 0 n || all == 0) }
{
    wants_more(count, 0) || all == 0
}

/// Whether one more may come behind so many: it isn't the last, or all are there with it.
fn may_stand(count: Option<u64>, read: usize, all: usize) -> bool
    requires { read < 2 ^ 63 }
    ensures { (n : ℕ) → count ≡ below (2 ^ 64) n → result ≡ (nat_lt (read + 1) n || (read + 1) == all) }
{
    wants_more(count, read + 1) || read + 1 == all
}

/// An input behind others, whose name is put to theirs.
fn read_input<'a>(
    alloc: Global,
    cursor: &mut Cursor<'a>,
    vars: &[Var],
    last: Option<u32>,
    names: &mut BTreeMap<&'a [u8], ()>,
    may_stand: bool,
) -> Result<Input, ReadFault>
    requires { length vars.now ≤ 2 ^ 32 }
    ensures { (all : ℕ) (before : List Input) → AreSeen vars.now before last names.old
        → may_stand ≡ (nat_lt (length before + 1) all || (length before + 1) == length (input_numbers vars.now))
        → Reads (λ i. row_marks (input_line (design_of vars.now [] []) all before i))
        (λ i held. (held ≡ i) × AreSeen vars.now (before ++ i ∷ []) (Some i.var) names.new) cursor.old result cursor.new }
{
    let var = number32(cursor)?;
    let name = read_name(cursor)?;
    let found = input_of(vars, last, names, may_stand, var, name);
    let var = close(cursor, found)?;
    add_name(names, name)?;
    let name = ByteText::from_slice(alloc, name)?;
    Ok(Input { var, name })
}

/// An input variable that comes behind the last one, with a new name.
fn input_of<'a>(
    vars: &[Var],
    last: Option<u32>,
    names: &BTreeMap<&'a [u8], ()>,
    may_stand: bool,
    var: Option<u32>,
    name: &'a [u8],
) -> Option<u32>
    requires { length vars.now ≤ 2 ^ 32 }
    ensures { (all : ℕ) (before : List Input) (i : Input) → AreSeen vars.now before last names.now
        → may_stand ≡ (nat_lt (length before + 1) all || (length before + 1) == length (input_numbers vars.now))
        → var ≡ below (2 ^ 32) i.var → name.now ≡ i.name
        → Judges (may_be_input vars.now all before) (λ j held. held ≡ j.var) i result }
{
    let Some(var) = var else {
        return None;
    };
    if !is_input(vars, var) {
        return None;
    }
    if !is_name(name) {
        return None;
    }
    if !is_behind(last, var) {
        return None;
    }
    if has_name(names, name) {
        return None;
    }
    if !may_stand {
        return None;
    }
    Some(var)
}

/// Whether a variable comes behind the last one.
fn is_behind(last: Option<u32>, var: u32) -> bool
    ensures { result ≡ is_behind nat_lt last var }
{
    match last {
        Some(last) => last < var,
        None => true,
    }
}
