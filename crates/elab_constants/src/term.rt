use bit_values::Bits;
use sqlite_items::Boxed;

/// An operator whose operands take the size and sign of their context (IEEE 1364-2005, 5.4 and 5.5).
#[derive(Clone, Copy, Debug, PartialEq, Eq)]
pub enum Arithmetic {
    /// `+`
    Add,
    /// `-`
    Subtract,
    /// `*`
    Multiply,
    /// `/`
    Divide,
    /// `%`
    Remainder,
    /// `&`
    And,
    /// `|`
    Or,
    /// `^`
    Xor,
    /// `~^` and `^~`
    Xnor,
}

/// A shift, whose left operand takes the size and sign of its context (IEEE 1364-2005, 5.1.12).
#[derive(Clone, Copy, Debug, PartialEq, Eq)]
pub enum Shift {
    /// `<<` and `<<<`
    Left,
    /// `>>`
    Right,
    /// `>>>`, which fills with the sign bit where the context is signed
    Arithmetic,
}

/// What of a constant expression still waits for the size and sign of its context. All that is valued by itself is a
/// number already, and of `?:` the chosen arm is left.
#[cycle(term)]
#[derive(Drop)]
pub enum Term {
    /// A value.
    Number(Bits),
    /// `-of`
    Negative(Boxed<Term>),
    /// `~of`
    Complement(Boxed<Term>),
    /// An operator between its operands.
    Arithmetic {
        op: Arithmetic,
        left: Boxed<Term>,
        right: Boxed<Term>,
    },
    /// A term shifted by a number.
    Shift {
        op: Shift,
        of: Boxed<Term>,
        by: Bits,
    },
}
