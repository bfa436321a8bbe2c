use design_tree::{Typed, TypedUnary};
use sqlite_items::Boxed;
use vlog_tree::BinaryOp;

/// What of an expression's typed form still waits for the size and sign of its context (IEEE 1364-2005, 5.4 and 5.5). All that
/// is valued by itself has its nodes already.
#[cycle(form)]
#[derive(Drop)]
pub enum Form {
    /// What is valued by itself, of so many bits: it is extended where its context has more.
    Alone {
        size: u8,
        typed: Typed,
    },
    /// `-` and `~`
    Unary {
        op: TypedUnary,
        of: Boxed<Form>,
    },
    /// An operator whose operands both take the context.
    Binary {
        op: BinaryOp,
        left: Boxed<Form>,
        right: Boxed<Form>,
    },
    /// A shift: what it moves takes the context.
    Shift {
        op: BinaryOp,
        of: Boxed<Form>,
        by: Typed,
    },
    /// `test ? yes : no`: the arms take the context.
    Choose {
        test: Typed,
        yes: Boxed<Form>,
        no: Boxed<Form>,
    },
}
