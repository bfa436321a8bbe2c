ghost use Rattle.std.specs.Prelude.{◌≡◌, ◌<◌, ◌≤◌, ◌^◌, ◌+◌, ◌++◌, ◌∷◌, [], length, slice_index, slice_set, replicate, All, OnOk, take, drop, IfOk};
ghost use Rattle.circuit_run.specs.States.{held, word_at};
ghost use Rattle.circuit_run.specs.Writes.{written};
ghost use Rattle.design_meaning.specs.Starts.{start_values};
ghost use Rattle.design_meaning.specs.ValidVariables.{IsVariable};
ghost use Rattle.design_state.specs.Layout.{split, AreLaid, Stands, words_at, start_of};
ghost use Rattle.design_state.specs.Positions.{offset, part_of};
ghost use Rattle.design_state.specs.Shapes.{HaveOneShape};

use crate::position::{Position, replaced};
use crate::update::Update;
use bit_values::Bits;
use cov_types::{NoMemory, Var};
use design_tree::Design;
use std::alloc::Global;
use std::marker::Model;

/// Where the words of a variable stand among those of all, how many they are, and how wide.
#[derive(Clone, Copy, Debug)]
pub(crate) struct Slot {
    pub(crate) base: usize,
    pub(crate) count: u32,
    pub(crate) width: u8,
}

/// The words of all variables.
#[derive(Drop)]
pub struct State {
    slots: Vec<Slot>,
    words: Vec<u128>,
}

impl Model for State {
    ghost use Rattle.circuit_run.specs.States as states;
    ghost use Rattle.design_state.specs.Layout.{split, AreLaid};

    ghost Value = { states.State };

    ghost view = { λ s. split s.slots.items s.words.items };

    ghost invariant = { λ s. AreLaid 0 s.slots.items s.words.items };
}

/// The slot of a variable.
fn slot_of(slots: &[Slot], words: &[u128], var: u32) -> Slot
    requires laid { AreLaid 0 slots.now words.now }
    requires var { var < length (split slots.now words.now) }
    ensures { Stands 0 slots.now words.now var result.base result }
{
    slots[var as usize]
}

/// The word of a slot at a position, and 0 where it has none.
fn number_in(words: &[u128], slot: Slot, at: Position) -> u128
    requires within { slot.base + slot.count ≤ length words.now }
    requires fit { All (λ n. n < 2 ^ slot.width) (take slot.count (drop slot.base words.now)) }
    ensures value { result ≡ word_at (words_at words.now slot.base slot) (offset at) }
    ensures fits { result < 2 ^ slot.width }
{
    match at {
        Position::At(at) => {
            if at >= u128::from(slot.count) {
                return 0;
            }
            words[slot.base + at as usize]
        }
        Position::Before(_) => 0,
    }
}

/// The same with its width.
fn word_in(words: &[u128], slot: Slot, at: Position) -> Bits
    requires some { 1 ≤ slot.width }
    requires most { slot.width ≤ 128 }
    requires within { slot.base + slot.count ≤ length words.now }
    requires fit { All (λ n. n < 2 ^ slot.width) (take slot.count (drop slot.base words.now)) }
    ensures width { result.width ≡ slot.width }
    ensures value { result.bits ≡ word_at (words_at words.now slot.base slot) (offset at) }
{
    Bits {
        width: slot.width,
        bits: number_in(words, slot, at),
    }
}

/// Puts a word so many times behind those that are there.
fn put_words(words: &mut Vec<u128>, word: u128, count: u32) -> Result<(), NoMemory>
    ensures { OnOk result (words.new.items ≡ words.old.items ++ replicate count word) }
{
    for done in 0..count {
        words.push(word)?;
    }
    Ok(())
}

/// Puts a variable behind those that are there, with its start value in each word.
fn add_variable(slots: &mut Vec<Slot>, words: &mut Vec<u128>, var: &Var) -> Result<(), NoMemory>
    requires laid { AreLaid 0 slots.old.items words.old.items }
    requires variable { IsVariable var.now }
    ensures laid { OnOk result (AreLaid 0 slots.new.items words.new.items) }
    ensures split { OnOk result (split slots.new.items words.new.items ≡ split slots.old.items words.old.items ++ start_of var.now ∷ []) }
{
    let base = words.as_slice().len();
    put_words(words, var.start, var.words)?;
    slots.push(Slot {
        base,
        count: var.words,
        width: var.width,
    })?;
    Ok(())
}

impl State {
    /// The start values of a design.
    pub fn new(alloc: Global, design: &Design) -> Result<State, NoMemory>
        requires { All IsVariable design.now.vars }
        ensures { IfOk result (λ s. s ≡ start_values design.now) }
    {
        let mut slots = Vec::new(alloc);
        let mut words = Vec::new(alloc);
        for var in design.vars.as_slice() {
            add_variable(&mut slots, &mut words, var)?;
        }
        Ok(State { slots, words })
    }

    /// Makes the state what another of the same variables is, all words at once.
    pub fn copy_from(&mut self, from: &State)
        requires { HaveOneShape self.old from.now }
        ensures { self.new ≡ from.now }
    {
        self.words
            .as_mut_slice()
            .copy_from_slice(from.words.as_slice());
    }

    /// One word of a variable.
    pub fn read(&self, var: u32, word: u32) -> u128
        requires var { var < length self.now }
        requires word { word < length (held self.now var).words }
        ensures value { result ≡ slice_index (held self.now var).words word }
        ensures fits { result < 2 ^ (held self.now var).width }
    {
        let slot = slot_of(self.slots.as_slice(), self.words.as_slice(), var);
        self.words[slot.base + word as usize]
    }

    /// Sets one word of a variable, and leaves all others.
    pub fn write(&mut self, var: u32, word: u32, value: u128)
        requires var { var < length self.old }
        requires word { word < length (held self.old var).words }
        requires fits { value < 2 ^ (held self.old var).width }
        ensures { self.new ≡ slice_set self.old var (record (held self.old var) { words = slice_set (held self.old var).words word value }) }
    {
        let slot = slot_of(self.slots.as_slice(), self.words.as_slice(), var);
        self.words[slot.base + word as usize] = value;
    }

    /// The word of a variable at a position, and 0 where it has none.
    pub fn word(&self, var: u32, at: Position) -> Bits
        requires { var < length self.now }
        ensures width { result.width ≡ (held self.now var).width }
        ensures value { result.bits ≡ word_at (held self.now var) (offset at) }
    {
        let slot = slot_of(self.slots.as_slice(), self.words.as_slice(), var);
        word_in(self.words.as_slice(), slot, at)
    }

    /// The width of a variable.
    pub fn width(&self, var: u32) -> u8
        requires { var < length self.now }
        ensures value { result ≡ (held self.now var).width }
        ensures some { 1 ≤ result }
        ensures most { result ≤ 128 }
    {
        slot_of(self.slots.as_slice(), self.words.as_slice(), var).width
    }

    /// Writes a part; what of it lies outside is left out.
    pub fn write_part(&mut self, part: &Update)
        requires { part.now.var < length self.old }
        ensures { self.new ≡ written self.old (part_of part.now) }
    {
        let slot = slot_of(self.slots.as_slice(), self.words.as_slice(), part.var);
        let at = match part.word {
            Position::At(at) => at,
            Position::Before(_) => return,
        };
        if at >= u128::from(slot.count) {
            return;
        }
        let place = slot.base + at as usize;
        let old = word_in(self.words.as_slice(), slot, part.word);
        self.words[place] = replaced(old, part.low, part.value).bits;
    }
}
