//! Toggle entries.

ghost use Rattle.std.specs.Prelude.{◌≡◌, ◌≤◌, ◌^◌, ℕ, [], List, length};
ghost use Rattle.std.specs.Option.{option_map};
ghost use Rattle.cvd_cursor.specs.Numerals.{below};
ghost use Rattle.cvd_cursor.specs.Reads.{Reads, marks};
ghost use Rattle.cvd_text.specs.Sections.{has_bit, is_below, toggle_line, toggle_lines};
ghost use Rattle.design_meaning.specs.Valid.{toggle_place};
ghost use Rattle.design_tree.specs.declared.design.Design.{Design};
ghost use Rattle.design_tree.specs.declared.instrumented.ToggleEntry.{ToggleEntry};
ghost use Rattle.cvd_sections.specs.Alone.{design_of, marks_alone, row_marks};
ghost use Rattle.cvd_sections.specs.Closing.{Judges};
ghost use Rattle.cvd_sections.specs.Fields.{HoldsPlace, HoldsToggle, HoldsTwo, JudgesBit, toggle_tokens};
ghost use Rattle.cvd_sections.specs.Places.{IsLastOf, is_behind};

use crate::ending::close;
use crate::field::{Two, two};
use crate::heading::{read_heading, wants_more};
use cov_types::{Rows, Var};
use cvd_cursor::{Cursor, ReadFault};
use design_tree::ToggleEntry;
use sqlite_items::at;
use std::alloc::Global;

/// The toggle entries of a design over variables with so many counters.
pub fn read_toggles(
    alloc: Global,
    cursor: &mut Cursor<'_>,
    vars: &[Var],
    counters: u32,
) -> Result<Rows<ToggleEntry>, ReadFault>
    requires { length vars.now ≤ 2 ^ 32 }
    ensures { Reads (λ ts. marks_alone (toggle_lines (design_of vars.now [] []) counters ts)) (λ ts held. held ≡ ts) cursor.old result cursor.new }
{
    let count = read_heading(cursor, b"toggles")?;
    cursor.end_line(true)?;
    let mut kept = Rows::new(alloc);
    let mut last = None;
    while wants_more(count, kept.len()) {
        let entry = read_toggle(cursor, vars, counters, last)?;
        kept.push(entry)?;
        last = Some(entry);
    }
    Ok(kept)
}

fn read_toggle(
    cursor: &mut Cursor<'_>,
    vars: &[Var],
    counters: u32,
    last: Option<ToggleEntry>,
) -> Result<ToggleEntry, ReadFault>
    requires { length vars.now ≤ 2 ^ 32 }
    ensures { (before : List ToggleEntry) → IsLastOf is_below toggle_place before (option_map toggle_place last)
        → Reads (λ t. row_marks (toggle_line (design_of vars.now [] []) counters before t)) (λ t held. held ≡ t) cursor.old result cursor.new }
{
    let fields = toggle_fields(cursor)?;
    let found = toggle_of(vars, counters, last, fields);
    close(cursor, found)
}

/// A variable and a word, a bit and a counter.
fn toggle_fields(cursor: &mut Cursor<'_>) -> Result<(Two, Two), ReadFault>
    ensures { Reads (marks toggle_tokens) HoldsToggle cursor.old result cursor.new }
{
    let place = two(cursor)?;
    let bit = two(cursor)?;
    Ok((place, bit))
}

/// An entry whose bit lies in its variable, with a counter, which comes behind the last one.
fn toggle_of(
    vars: &[Var],
    counters: u32,
    last: Option<ToggleEntry>,
    fields: (Two, Two),
) -> Option<ToggleEntry>
    requires { length vars.now ≤ 2 ^ 32 }
    ensures { (before : List ToggleEntry) (t : ToggleEntry)
        → IsLastOf is_below toggle_place before (option_map toggle_place last) → HoldsToggle t fields
        → Judges (λ u. (toggle_line (design_of vars.now [] []) counters before u).holds) (λ u held. held ≡ u) t result }
{
    let (place, (bit, counter)) = fields;
    let Some((var, word, bit)) = bit_of(vars, place, bit) else {
        return None;
    };
    let Some(counter) = counter else {
        return None;
    };
    if counter >= counters {
        return None;
    }
    let entry = ToggleEntry {
        var,
        word,
        bit,
        counter,
    };
    if !is_behind(last, entry) {
        return None;
    }
    Some(entry)
}

/// The variable, the word and the bit, where the variable has it.
fn bit_of(vars: &[Var], place: Two, bit: Option<u32>) -> Option<(u32, u32, u8)>
    requires { length vars.now ≤ 2 ^ 32 }
    ensures { (d : Design) (t : ToggleEntry) → d.vars ≡ vars.now → HoldsTwo (t.var, t.word) place → bit ≡ below (2 ^ 32) t.bit
        → Judges (has_bit d) HoldsPlace t result }
{
    let (var, word) = place;
    let Some(var) = var else {
        return None;
    };
    let Some(found) = at(vars, var as usize) else {
        return None;
    };
    let Some((word, bit)) = word_and_bit(*found, word, bit) else {
        return None;
    };
    Some((var, word, bit))
}

/// A word and a bit that a variable has.
fn word_and_bit(found: Var, word: Option<u32>, bit: Option<u32>) -> Option<(u32, u8)>
    ensures { (w b : ℕ) → word ≡ below (2 ^ 32) w → bit ≡ below (2 ^ 32) b → JudgesBit found w b result }
{
    let (Some(word), Some(bit)) = (word, bit) else {
        return None;
    };
    if word >= found.words || bit >= found.width as u32 {
        return None;
    }
    Some((word, bit as u8))
}

/// Whether an entry comes behind the last one.
fn is_behind(last: Option<ToggleEntry>, entry: ToggleEntry) -> bool
    ensures { result ≡ is_behind is_below (option_map toggle_place last) (toggle_place entry) }
{
    match last {
        Some(last) => place(last).as_slice().cmp(place(entry).as_slice()).is_lt(),
        None => true,
    }
}

/// What toggle entries ascend by.
fn place(entry: ToggleEntry) -> [u32; 3]
    ensures { result ≡ toggle_place entry }
{
    [entry.var, entry.word, entry.bit as u32]
}
