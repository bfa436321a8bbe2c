ghost use Rattle.std.specs.Prelude.{◌≡◌, ℕ, ◌≤◌, ◌<◌, ◌+◌, ◌^◌, Some, true, false, All, IfOk, length, slice_index};
ghost use Rattle.std.specs.Int.{bit_at};
ghost use Rattle.circuit_run.specs.States.{held};
ghost use Rattle.design_meaning.specs.Counters.{HasCounted, toggled};
ghost use Rattle.design_meaning.specs.States.{IsStateOf};
ghost use Rattle.design_meaning.specs.Valid.{AreToggles};
ghost use Rattle.design_meaning.specs.ValidVariables.{IsVariable};
ghost use Rattle.place_marks.specs.Marked.{is_marked};
ghost use Rattle.cycle_parts.specs.Toggles.{AreFirsts, AreOfOneWord, DoBitsAscend, differing, entry_at};

use crate::count::raise_one;
use cov_types::NoMemory;
use design_state::State;
use design_tree::{Instrumented, ToggleEntry};
use place_marks::PlaceMarks;
use std::alloc::Global;

/// Whether two entries are of bits of one word.
fn are_of_one_word(a: &ToggleEntry, b: &ToggleEntry) -> bool
    ensures { result ≡ true → AreOfOneWord a.now b.now }
{
    a.var == b.var && a.word == b.word
}

/// A place up to which all entries from another on are of one word: behind those of the whole word where each bit above has one.
fn word_end(x: &Instrumented, at: usize) -> usize
    requires toggles { AreToggles x.now }
    requires here { at < length x.now.toggles }
    ensures more { at < result }
    ensures within { result ≤ length x.now.toggles }
    ensures same { (k : ℕ) → at ≤ k → k < result → AreOfOneWord (entry_at x.now.toggles at) (entry_at x.now.toggles k) }
{
    let entries = x.toggles.as_slice();
    let entry = &entries[at];
    let above = x.design.vars.as_slice()[entry.var as usize].width - entry.bit;
    let end = at + usize::from(above);
    if end <= entries.len() && are_of_one_word(entry, &entries[end - 1]) {
        return end;
    }
    at + 1
}

/// The bit of a word at a place.
fn bit_of(word: u128, place: u8) -> u128
    requires { place < 128 }
    ensures { result ≡ bit_at word place }
{
    (word >> place) % 2
}

/// A place of entries of one word, from one on, up to which no entry's bit is a one: mostly that of the next one.
fn next_one(entries: &[ToggleEntry], word: u128, at: usize) -> usize
    requires ascending { DoBitsAscend entries.now }
    requires places { All (λ entry. entry.bit < 128) entries.now }
    requires here { at < length entries.now }
    ensures from { at ≤ result }
    ensures within { result ≤ length entries.now }
    ensures none { (k : ℕ) → at ≤ k → k < result → bit_at word (entry_at entries.now k).bit ≡ 0 }
{
    let place = u32::from(entries[at].bit);
    let above = word >> place;
    if above == 0 {
        return entries.len();
    }
    let zeros = above.trailing_zeros();
    let next = at + zeros as usize;
    if next < entries.len() && u32::from(entries[next].bit) == place + zeros {
        return next;
    }
    at
}

/// Raises the counters of the entries of a word whose bit differs in two values of it.
fn raise_word(entries: &[ToggleEntry], was: u128, is: u128, counts: &mut [u64])
    requires ascending { DoBitsAscend entries.now }
    requires places { All (λ entry. entry.bit < 128) entries.now }
    requires fit { (k : ℕ) → slice_index counts.old k + length entries.now < 2 ^ 64 }
    ensures { HasCounted counts.old (differing was is entries.now) counts.new }
{
    let differing = was ^ is;
    let mut at = 0;
    'ones: while at < entries.len() {
        let next = next_one(entries, differing, at);
        if next == entries.len() {
            return;
        }
        let entry = &entries[next];
        if bit_of(differing, entry.bit) == 1 {
            raise_one(counts, entry.counter);
        }
        at = next + 1;
    }
}

/// The first entry from one on that is of a variable from a number on.
fn first_from(entries: &[ToggleEntry], at: usize, var: usize) -> usize
    requires { at ≤ length entries.now }
    ensures from { at ≤ result }
    ensures within { result ≤ length entries.now }
    ensures below { (k : ℕ) → at ≤ k → k < result → (entry_at entries.now k).var < var }
    ensures end { result < length entries.now → var ≤ (entry_at entries.now result).var }
{
    let mut end = at;
    'entries: while end < entries.len() && (entries[end].var as usize) < var {
        end += 1;
    }
    end
}

/// For each variable the number of toggle entries of the variables before it.
pub fn first_entries(alloc: Global, x: &Instrumented) -> Result<Vec<usize>, NoMemory>
    requires { AreToggles x.now }
    ensures { IfOk result (λ firsts. AreFirsts (length x.now.design.vars) x.now.toggles firsts.items) }
{
    let entries = x.toggles.as_slice();
    let mut firsts = Vec::new(alloc);
    let mut at = 0;
    for var in 0..x.design.vars.as_slice().len() {
        at = first_from(entries, at, var);
        firsts.push(at)?;
    }
    Ok(firsts)
}

/// The first entry from one on whose variable may have changed, and the end where there is none.
fn next_changed(x: &Instrumented, firsts: &[usize], changed: &PlaceMarks, at: usize) -> usize
    requires toggles { AreToggles x.now }
    requires firsts { AreFirsts (length x.now.design.vars) x.now.toggles firsts.now }
    requires here { at < length x.now.toggles }
    ensures from { at ≤ result }
    ensures within { result ≤ length x.now.toggles }
    ensures unchanged { (k : ℕ) → at ≤ k → k < result → is_marked changed.now (entry_at x.now.toggles k).var ≡ false }
{
    let entries = x.toggles.as_slice();
    let var = entries[at].var as usize;
    match changed.next(var) {
        Some(next) => {
            if next == var {
                return at;
            }
            if next < firsts.len() {
                return firsts[next];
            }
            entries.len()
        }
        None => entries.len(),
    }
}

/// Raises the counters of the toggle entries whose bit differs in two settled states. Only entries of variables that are
/// marked as changed are looked at, and of a word that is the same in both no bit.
pub fn raise_toggled(
    x: &Instrumented,
    firsts: &[usize],
    changed: &PlaceMarks,
    before: &State,
    now: &State,
    counts: &mut [u64],
)
    requires variables { All IsVariable x.now.design.vars }
    requires toggles { AreToggles x.now }
    requires firsts { AreFirsts (length x.now.design.vars) x.now.toggles firsts.now }
    requires before { IsStateOf x.now.design before.now }
    requires now { IsStateOf x.now.design now.now }
    requires unchanged { (v : ℕ) → v < length x.now.design.vars → is_marked changed.now v ≡ false → held now.now v ≡ held before.now v }
    requires fit { (k : ℕ) → slice_index counts.old k + length x.now.toggles < 2 ^ 64 }
    ensures { HasCounted counts.old (toggled (Some before.now) now.now x.now.toggles) counts.new }
{
    let entries = x.toggles.as_slice();
    let mut at = 0;
    'words: while at < entries.len() {
        let from = next_changed(x, firsts, changed, at);
        if from == entries.len() {
            return;
        }
        let entry = &entries[from];
        let end = word_end(x, from);
        let was = before.read(entry.var, entry.word);
        let is = now.read(entry.var, entry.word);
        raise_word(&entries[from..end], was, is, counts);
        at = end;
    }
}
