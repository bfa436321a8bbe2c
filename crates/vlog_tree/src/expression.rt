use crate::operator::{BinaryOp, SystemCall, UnaryOp};
use cov_types::ByteText;
use sqlite_items::{Boxed, Items};

/// The part of a name that is read or written (IEEE 1364-2005, bit-selects and part-selects).
#[cycle(expression)]
#[derive(Drop)]
pub enum Select {
    /// `[position]`
    At(Boxed<Expr>),
    /// `[high : low]`
    Between(Boxed<Expr>, Boxed<Expr>),
    /// `[lowest +: width]`
    Up(Boxed<Expr>, Boxed<Expr>),
    /// `[highest -: width]`
    Down(Boxed<Expr>, Boxed<Expr>),
}

/// An expression as it is written, without its parentheses (IEEE 1364-2005, expressions).
#[cycle(expression)]
#[derive(Drop)]
pub enum Expr {
    /// A number; `free` has the bits that a `z` or a `?` stood for.
    Number {
        width: u8,
        signed: bool,
        value: u128,
        free: u128,
    },
    /// A name.
    Name(ByteText),
    /// A part of a name, or a part of a part of it.
    Select {
        base: Boxed<Expr>,
        select: Select,
    },
    /// An operator before its operand.
    Unary {
        op: UnaryOp,
        of: Boxed<Expr>,
    },
    /// An operator between its operands.
    Binary {
        op: BinaryOp,
        left: Boxed<Expr>,
        right: Boxed<Expr>,
    },
    /// `test ? yes : no`
    Choose {
        test: Boxed<Expr>,
        yes: Boxed<Expr>,
        no: Boxed<Expr>,
    },
    /// `{part, part}`
    Join(Items<Expr>),
    /// `{count{part, part}}`
    Repeat {
        count: Boxed<Expr>,
        parts: Items<Expr>,
    },
    /// `$call(of)`
    Call {
        name: SystemCall,
        of: Boxed<Expr>,
    },
}

/// The range of a vector or of a memory (IEEE 1364-2005, vectors and arrays).
#[derive(Drop)]
pub struct RangeExpr {
    pub high: Expr,
    pub low: Expr,
}
