ghost use Rattle.std.specs.Prelude.{◌≡◌, ◌+◌, ◌<◌, ◌≤◌, ◌||◌, ◌&&◌, not, true, false, IfOk, IsTrue, ◌↔◌};
ghost use Rattle.circuit_run.specs.States.{Bit};
ghost use Rattle.flow_marks.specs.Slots.{AreFew, IsIn, IsSpan, IsOneOrAll, column, is_in, is_same, slot_of, slots_from};
ghost use Rattle.flow_marks.specs.Sets.{has, IsColumn, HasColumn, HasInColumn, Meets};

use crate::slot::{Layout, Slot, laid_out};
use crate::span::Span;
use cov_types::{NoMemory, Var};
use std::alloc::Global;
use std::marker::Model;

/// A set of bits of some variables.
#[derive(Drop)]
pub struct Marks {
    slots: Vec<Slot>,
    bits: Vec<bool>,
    counts: Vec<u32>,
}

impl Model for Marks {
    ghost use Rattle.flow_marks.specs.Sets.{MarkSet, IsKept};

    ghost Value = { MarkSet };

    ghost view = { λ m. record { slots = m.slots.items; bits = m.bits.items } };

    ghost invariant = { λ m. IsKept m.slots.items m.bits.items m.counts.items };
}

impl Marks {
    /// No bits of these variables.
    pub fn new(alloc: Global, vars: &[Var]) -> Result<Marks, NoMemory>
        requires { AreFew vars.now }
        ensures slots { IfOk result (λ m. m.slots ≡ slots_from 0 0 vars.now) }
        ensures none { IfOk result (λ m. (b : Bit) → has m b ≡ false) }
    {
        let Layout {
            slots,
            bits,
            columns,
        } = laid_out(alloc, vars)?;
        let bits = vec![in alloc; false; bits]?;
        let counts = vec![in alloc; 0; columns]?;
        Ok(Marks {
            slots,
            bits,
            counts,
        })
    }

    /// Whether a bit is in the set.
    pub fn has(&self, var: u32, word: u32, place: u8) -> bool
        requires { IsIn self.now.slots (record { var = var; word = word; place = place }) }
        ensures { result ≡ has self.now (record { var = var; word = word; place = place }) }
    {
        let slot = self.slots[var as usize];
        self.bits[slot.bit + (word as usize * slot.width as usize + place as usize)]
    }

    /// Puts a bit into the set.
    pub fn add(&mut self, var: u32, word: u32, place: u8)
        requires { IsIn self.old.slots (record { var = var; word = word; place = place }) }
        ensures slots { self.new.slots ≡ self.old.slots }
        ensures bits { (b : Bit) → IsIn self.old.slots b → has self.new b ≡ (is_same (record { var = var; word = word; place = place }) b || has self.old b) }
    {
        let slot = self.slots[var as usize];
        let number = slot.bit + (word as usize * slot.width as usize + place as usize);
        if !self.bits[number] {
            self.bits[number] = true;
            self.counts[slot.column + place as usize] += 1;
        }
    }

    /// Takes a bit out of the set.
    pub fn remove(&mut self, var: u32, word: u32, place: u8)
        requires { IsIn self.old.slots (record { var = var; word = word; place = place }) }
        ensures slots { self.new.slots ≡ self.old.slots }
        ensures bits { (b : Bit) → IsIn self.old.slots b → has self.new b ≡
            (not (is_same (record { var = var; word = word; place = place }) b) && has self.old b) }
    {
        let slot = self.slots[var as usize];
        let number = slot.bit + (word as usize * slot.width as usize + place as usize);
        if self.bits[number] {
            self.bits[number] = false;
            self.counts[slot.column + place as usize] -= 1;
        }
    }

    /// Whether a bit of some word, at this place, is in the set.
    fn has_in_column(&self, var: u32, place: u8) -> bool
        requires { IsColumn self.now.slots var place }
        ensures { IsTrue result ↔ HasInColumn self.now var place }
    {
        let slot = self.slots[var as usize];
        self.counts[slot.column + place as usize] > 0
    }

    /// Whether the bits at this place are in the set in all words.
    fn is_full(&self, var: u32, place: u8) -> bool
        requires { IsColumn self.now.slots var place }
        ensures { IsTrue result ↔ HasColumn self.now var place }
    {
        let slot = self.slots[var as usize];
        self.counts[slot.column + place as usize] == slot.words
    }

    /// Puts the bits of a span at one of its places into the set.
    fn insert_column(&mut self, span: Span, place: u8)
        requires span { IsSpan self.old.slots span }
        requires place { place < span.place_end }
        ensures slots { self.new.slots ≡ self.old.slots }
        ensures bits { (b : Bit) → IsIn self.old.slots b → has self.new b ≡ (is_in (column span place span.word_end) b || has self.old b) }
    {
        // A memory may be written at many computed positions: what is full isn't filled again.
        if self.is_full(span.var, place) {
            return;
        }
        for word in span.word..span.word_end {
            self.add(span.var, word, place);
        }
    }

    /// Puts the bits of a span into the set.
    pub fn insert(&mut self, span: Span)
        requires { IsSpan self.old.slots span }
        ensures slots { self.new.slots ≡ self.old.slots }
        ensures bits { (b : Bit) → IsIn self.old.slots b → has self.new b ≡ (is_in span b || has self.old b) }
    {
        for place in span.place..span.place_end {
            self.insert_column(span, place);
        }
    }

    /// Whether a bit of the first word of a span is in the set.
    fn meets_word(&self, span: Span) -> bool
        requires span { IsSpan self.now.slots span }
        requires one { span.word_end ≡ span.word + 1 }
        ensures { IsTrue result ↔ Meets self.now span }
    {
        for place in span.place..span.place_end {
            if self.has(span.var, span.word, place) {
                return true;
            }
        }
        false
    }

    /// Whether a bit at the places of a span is in the set, in any word.
    fn meets_columns(&self, span: Span) -> bool
        requires span { IsSpan self.now.slots span }
        requires all { (span.word ≡ 0) × (span.word_end ≡ (slot_of self.now.slots span.var).words) }
        ensures { IsTrue result ↔ Meets self.now span }
    {
        for place in span.place..span.place_end {
            if self.has_in_column(span.var, place) {
                return true;
            }
        }
        false
    }

    /// Whether a bit of a span is in the set.
    pub fn meets(&self, span: Span) -> bool
        requires span { IsSpan self.now.slots span }
        requires words { IsOneOrAll self.now.slots span }
        ensures { IsTrue result ↔ Meets self.now span }
    {
        if span.word_end == 1 + span.word {
            return self.meets_word(span);
        }
        self.meets_columns(span)
    }
}
