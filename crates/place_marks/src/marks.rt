ghost use Rattle.std.specs.Prelude.{◌≡◌, ℕ, ◌<◌, ◌≤◌, ◌*◌, ◌==◌, ◌||◌, None, true, false, IfOk, IfSome, length};
ghost use Rattle.std.specs.Int.{bit_at};
ghost use Rattle.place_marks.specs.Marked.{IsNext, NoneFrom, is_marked, is_one};

use cov_types::NoMemory;
use std::alloc::Global;
use std::marker::Model;

/// Places from 0 on, of which some are marked.
#[derive(Drop)]
pub struct PlaceMarks {
    words: Vec<u64>,
}

impl Model for PlaceMarks {
    ghost use Rattle.std.specs.Prelude.{List, ℕ, ◌≤◌, ◌^◌, length};

    ghost Value = { List ℕ };

    ghost view = { λ m. m.words.items };

    ghost invariant = { λ m. length m.words.items ≤ 2 ^ 58 };
}

/// The place of the lowest one of a word from a place on.
fn lowest_from(word: u64, from: u32) -> Option<u32>
    requires { from < 64 }
    ensures found { IfSome result (λ at. (from ≤ at) × (at < 64) × is_one word at × ((k : ℕ) → from ≤ k → k < at → bit_at word k ≡ 0)) }
    ensures none { result ≡ None → (k : ℕ) → from ≤ k → bit_at word k ≡ 0 }
{
    let rest = word & (u64::MAX << from);
    if rest == 0 {
        return None;
    }
    Some(rest.trailing_zeros())
}

impl PlaceMarks {
    /// So many places, of which none is marked.
    pub fn new(alloc: Global, count: usize) -> Result<PlaceMarks, NoMemory>
        ensures room { IfOk result (λ m. count ≤ 64 * length m) }
        ensures none { IfOk result (λ m. (k : ℕ) → is_marked m k ≡ false) }
    {
        Ok(PlaceMarks {
            words: vec![in alloc; 0u64; count / 64 + 1]?,
        })
    }

    /// Takes all marks off.
    pub fn clear(&mut self)
        ensures room { length self.new ≡ length self.old }
        ensures none { (k : ℕ) → is_marked self.new k ≡ false }
    {
        self.words.as_mut_slice().fill(0);
    }

    /// Marks a place.
    pub fn mark(&mut self, place: usize)
        requires { place < 64 * length self.old }
        ensures room { length self.new ≡ length self.old }
        ensures marks { (k : ℕ) → is_marked self.new k ≡ (place == k || is_marked self.old k) }
    {
        self.words[place / 64] |= 1 << (place % 64);
    }

    /// The first marked place from a place on.
    pub fn next(&self, from: usize) -> Option<usize>
        ensures found { IfSome result (IsNext self.now from) }
        ensures none { result ≡ None → NoneFrom self.now from }
    {
        let mut at = from / 64;
        let mut low = (from % 64) as u32;
        'words: while at < self.words.len() {
            if let Some(place) = lowest_from(self.words[at], low) {
                return Some(at * 64 + place as usize);
            }
            at += 1;
            low = 0;
        }
        None
    }

    /// The first marked place from one on, and the end where there is none before it.
    pub fn next_before(&self, from: usize, end: usize) -> usize
        requires { from ≤ end }
        ensures from { from ≤ result }
        ensures end { result ≤ end }
        ensures between { (k : ℕ) → from ≤ k → k < result → is_marked self.now k ≡ false }
        ensures marked { result < end → is_marked self.now result ≡ true }
    {
        match self.next(from) {
            Some(at) => at.min(end),
            None => end,
        }
    }
}
