//! Lists of counters, as one word each.

ghost use Rattle.std.specs.Prelude.{◌≡◌, true, IfOk};
ghost use Rattle.std.specs.List.{list_all};
ghost use Rattle.cvd_cursor.specs.Numerals.{is_numeral};
ghost use Rattle.cvd_cursor.specs.Reads.{Reads, marks};
ghost use Rattle.cvd_sections.specs.Keys.{HoldsCounters, HoldsNumber, counters_tokens, is_list, list_of, parts_of};

use cov_types::{NoMemory, Rows};
use cvd_cursor::{Cursor, ReadFault, is_numeral, value};
use memchr::memchr;
use std::alloc::Global;

/// A list of counters, where all of them are below a number.
pub(crate) fn read_list(
    alloc: Global,
    cursor: &mut Cursor<'_>,
    counters: u32,
) -> Result<Option<Rows<u32>>, ReadFault>
    ensures { Reads (marks counters_tokens) (HoldsCounters counters) cursor.old result cursor.new }
{
    let Some(word) = cursor.peek() else {
        return Err(cursor.wrong(false));
    };
    if !is_list(word) {
        return Err(ReadFault::BadToken);
    }
    let held = list_of(alloc, word, counters)?;
    cursor.skip();
    Ok(held)
}

/// Whether a word is `-`, or numbers with a comma between two.
fn is_list(word: &[u8]) -> bool
    ensures { result ≡ is_list word.now }
{
    word == b"-".as_slice() || are_numerals(word)
}

fn are_numerals(text: &[u8]) -> bool
    ensures { result ≡ list_all (is_numeral 10) (parts_of text.now) }
{
    let mut rest = text;
    'parts: while let Some(at) = memchr(b',', rest) {
        if !is_numeral(&rest[..at], 10) {
            return false;
        }
        rest = &rest[at + 1..];
    }
    is_numeral(rest, 10)
}

/// The numbers of a list, where all of them are below a number.
fn list_of(alloc: Global, word: &[u8], counters: u32) -> Result<Option<Rows<u32>>, NoMemory>
    requires { is_list word.now ≡ true }
    ensures { IfOk result (HoldsCounters counters (list_of word.now)) }
{
    if word == b"-".as_slice() {
        return Ok(Some(Rows::new(alloc)));
    }
    let mut kept = Rows::new(alloc);
    let mut rest = word;
    'parts: while let Some(at) = memchr(b',', rest) {
        let Some(counter) = counter_of(&rest[..at], counters) else {
            return Ok(None);
        };
        kept.push(counter)?;
        rest = &rest[at + 1..];
    }
    let Some(counter) = counter_of(rest, counters) else {
        return Ok(None);
    };
    kept.push(counter)?;
    Ok(Some(kept))
}

/// The number that a word spells, where it is below a number.
fn counter_of(word: &[u8], counters: u32) -> Option<u32>
    requires { is_numeral 10 word.now ≡ true }
    ensures { HoldsNumber counters word.now result }
{
    match value(word, 10) {
        Some(value) if value < counters as u128 => Some(value as u32),
        _ => None,
    }
}
