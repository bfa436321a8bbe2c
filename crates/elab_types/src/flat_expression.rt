use sqlite_items::{Boxed, Items};
use vlog_tree::{BinaryOp, SystemCall, UnaryOp};

/// The part of a variable that is read or written (IEEE 1364-2005, bit-selects and part-selects).
#[cycle(flat_expr)]
#[derive(Drop)]
pub enum FlatSelect {
    /// `[position]`
    At(Boxed<FlatExpr>),
    /// `[high : low]`
    Between(Boxed<FlatExpr>, Boxed<FlatExpr>),
    /// `[lowest +: width]`
    Up(Boxed<FlatExpr>, Boxed<FlatExpr>),
    /// `[highest -: width]`
    Down(Boxed<FlatExpr>, Boxed<FlatExpr>),
}

/// An expression in which each name is resolved: a variable by its number, a constant or loop variable by its value
/// (IEEE 1364-2005, expressions).
#[cycle(flat_expr)]
#[derive(Drop)]
pub enum FlatExpr {
    /// A number, or the value of a constant; `free` has the bits that a `z` or a `?` stood for.
    Number {
        width: u8,
        signed: bool,
        value: u128,
        free: u128,
    },
    /// The variable of this number.
    Var(u32),
    /// A part of a variable, or a part of a part of it.
    Select {
        base: Boxed<FlatExpr>,
        select: FlatSelect,
    },
    /// An operator before its operand.
    Unary {
        op: UnaryOp,
        of: Boxed<FlatExpr>,
    },
    /// An operator between its operands.
    Binary {
        op: BinaryOp,
        left: Boxed<FlatExpr>,
        right: Boxed<FlatExpr>,
    },
    /// `test ? yes : no`
    Choose {
        test: Boxed<FlatExpr>,
        yes: Boxed<FlatExpr>,
        no: Boxed<FlatExpr>,
    },
    /// `{part, part}`
    Join(Items<FlatExpr>),
    /// `{count{part, part}}`
    Repeat {
        count: Boxed<FlatExpr>,
        parts: Items<FlatExpr>,
    },
    /// `$call(of)`
    Call {
        name: SystemCall,
        of: Boxed<FlatExpr>,
    },
}
