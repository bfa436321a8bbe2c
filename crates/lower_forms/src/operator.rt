ghost use Rattle.std.specs.Prelude.{◌≡◌, IfOk};
ghost use Rattle.design_tree.specs.declared.typed.Typed.TheVariants as t;
ghost use Rattle.lower_forms.specs.Operators as spec;

use design_tree::{Typed, TypedBinary, TypedUnary};
use sqlite_items::Boxed;
use std::alloc::{AllocError, Global};
use vlog_tree::BinaryOp;

/// One node round an operand.
pub fn unary(alloc: Global, op: TypedUnary, of: Typed) -> Result<Typed, AllocError>
    ensures { IfOk result (λ a. a ≡ t.Unary op of) }
{
    let of = Boxed::new(alloc, of)?;
    Ok(Typed::Unary { op, of })
}

fn two(alloc: Global, op: TypedBinary, left: Typed, right: Typed) -> Result<Typed, AllocError>
    ensures { IfOk result (λ a. a ≡ t.Binary op left right) }
{
    let left = Boxed::new(alloc, left)?;
    let right = Boxed::new(alloc, right)?;
    Ok(Typed::Binary { op, left, right })
}

/// The first where the operands are read by their signs, the second where they aren't.
fn either(by_sign: bool, signed: TypedBinary, unsigned: TypedBinary) -> TypedBinary
    ensures { result ≡ spec.either by_sign signed unsigned }
{
    if by_sign { signed } else { unsigned }
}

/// The node that stands for an operator, by the sign of its operands.
fn node_of(op: BinaryOp, by_sign: bool) -> TypedBinary
    ensures { result ≡ spec.node_of op by_sign }
{
    match op {
        BinaryOp::Add => TypedBinary::Add,
        BinaryOp::Subtract => TypedBinary::Sub,
        BinaryOp::Multiply => TypedBinary::Mul,
        BinaryOp::Divide => either(
            by_sign,
            TypedBinary::DivideSigned,
            TypedBinary::DivideUnsigned,
        ),
        BinaryOp::Remainder => either(
            by_sign,
            TypedBinary::RemainderSigned,
            TypedBinary::RemainderUnsigned,
        ),
        BinaryOp::And | BinaryOp::LogicalAnd => TypedBinary::And,
        BinaryOp::Or | BinaryOp::LogicalOr => TypedBinary::Or,
        BinaryOp::Xor | BinaryOp::TildeCaret | BinaryOp::CaretTilde => TypedBinary::Xor,
        BinaryOp::ShiftLeft | BinaryOp::ArithmeticShiftLeft => TypedBinary::ShiftLeft,
        BinaryOp::ShiftRight => TypedBinary::ShiftRight,
        BinaryOp::ArithmeticShiftRight => either(
            by_sign,
            TypedBinary::ShiftRightSigned,
            TypedBinary::ShiftRight,
        ),
        BinaryOp::Equal | BinaryOp::CaseEqual | BinaryOp::NotEqual | BinaryOp::CaseNotEqual => {
            TypedBinary::Equal
        }
        BinaryOp::Less | BinaryOp::Greater => {
            either(
                by_sign,
                TypedBinary::BelowSigned,
                TypedBinary::BelowUnsigned,
            )
        }
        BinaryOp::LessOrEqual | BinaryOp::GreaterOrEqual => {
            either(
                by_sign,
                TypedBinary::AtMostSigned,
                TypedBinary::AtMostUnsigned,
            )
        }
    }
}

/// `>` and `>=` are the other comparisons with their operands exchanged.
fn is_exchanged(op: BinaryOp) -> bool
    ensures { result ≡ spec.is_exchanged op }
{
    match op {
        BinaryOp::Greater | BinaryOp::GreaterOrEqual => true,
        _ => false,
    }
}

/// `~^` and `^~`, `!=` and `!==` stand inside one `not`.
fn is_inverted(op: BinaryOp) -> bool
    ensures { result ≡ spec.is_inverted op }
{
    match op {
        BinaryOp::TildeCaret | BinaryOp::CaretTilde | BinaryOp::NotEqual | BinaryOp::CaseNotEqual =>
            true,
        _ => false,
    }
}

/// The nodes of an operator round its operands, which are read by their signs or not.
pub fn binary(
    alloc: Global,
    op: BinaryOp,
    by_sign: bool,
    left: Typed,
    right: Typed,
) -> Result<Typed, AllocError>
    ensures { IfOk result (λ a. a ≡ spec.made op by_sign left right) }
{
    let node = node_of(op, by_sign);
    if is_exchanged(op) {
        return two(alloc, node, right, left);
    }
    let all = two(alloc, node, left, right)?;
    if is_inverted(op) {
        return unary(alloc, TypedUnary::Not, all);
    }
    Ok(all)
}
