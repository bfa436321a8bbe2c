ghost use Rattle.std.specs.Prelude.{◌≡◌, ◌≤◌, ◌↔◌, IsTrue};

use crate::term::Term;
use crate::value::value;
use bit_values::Bits;

/// A constant expression with its size and sign. Its value waits for the size and sign of its context.
#[derive(Drop)]
pub struct SizedTerm {
    pub size: u8,
    pub signed: bool,
    pub term: Term,
    ghost at_least: { 1 ≤ size },
    ghost at_most: { size ≤ 128 },
}

impl SizedTerm {
    ghost use Rattle.std.specs.Prelude.{[]};
    ghost use Rattle.source_meaning.specs.Meaning.{Meaning, own, holds};
    ghost use Rattle.source_meaning.specs.Assignments.{assigned};
    ghost use Rattle.elab_constants.specs.Sized.{IsSized};

    /// The value at the size and sign of a context that has no fewer bits.
    pub fn at(&self, size: u8, by_sign: bool) -> Bits
        requires at_least { self.now.size ≤ size }
        requires at_most { size ≤ 128 }
        ensures width { result.width ≡ size }
        ensures value { (m : Meaning) → IsSized m self.now → result.bits ≡ m.value [] size by_sign }
    {
        value(&self.term, size, by_sign)
    }

    /// The value by itself.
    pub fn own(&self) -> Bits
        ensures width { result.width ≡ self.now.size }
        ensures value { (m : Meaning) → IsSized m self.now → result.bits ≡ own m [] }
    {
        value(&self.term, self.size, self.signed)
    }

    /// Whether it holds as a test: its value isn't 0.
    pub fn holds(&self) -> bool
        ensures { (m : Meaning) → IsSized m self.now → result ≡ holds m [] }
    {
        self.own().bits > 0
    }

    /// The value that so many bits have after its assignment: it is valued at the greater of both sizes, and truncated.
    pub fn assigned(&self, size: u8) -> Bits
        requires at_least { 1 ≤ size }
        requires at_most { size ≤ 128 }
        ensures width { result.width ≡ size }
        ensures value { (m : Meaning) → IsSized m self.now → result.bits ≡ assigned size m [] }
    {
        if size < self.size {
            return bit_values::truncate(self.own(), size);
        }
        self.at(size, self.signed)
    }
}
