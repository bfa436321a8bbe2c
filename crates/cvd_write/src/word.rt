ghost use Rattle.std.specs.Prelude.{◌≡◌};
ghost use Rattle.cvd_text.specs.Expressions.{binary_word, sign_word, unary_word};
ghost use Rattle.cvd_text.specs.Sections.{kind_word, process_word};

use cov_types::{ProcessKind, VarKind};
use design_tree::{TypedBinary, TypedUnary};

/// The word of a sign.
pub(crate) fn sign_word(signed: bool) -> &'static [u8]
    ensures { result.now ≡ sign_word signed }
{
    if signed { b"s" } else { b"u" }
}

/// The word of an operator of one operand.
pub(crate) fn unary_word(op: TypedUnary) -> &'static [u8]
    ensures { result.now ≡ unary_word op }
{
    match op {
        TypedUnary::Not => b"not",
        TypedUnary::Neg => b"neg",
        TypedUnary::ReduceAnd => b"rand",
        TypedUnary::ReduceOr => b"ror",
        TypedUnary::ReduceXor => b"rxor",
    }
}

/// The word of an operator of two operands.
pub(crate) fn binary_word(op: TypedBinary) -> &'static [u8]
    ensures { result.now ≡ binary_word op }
{
    match op {
        TypedBinary::Add => b"add",
        TypedBinary::Sub => b"sub",
        TypedBinary::Mul => b"mul",
        TypedBinary::DivideUnsigned => b"udiv",
        TypedBinary::DivideSigned => b"sdiv",
        TypedBinary::RemainderUnsigned => b"urem",
        TypedBinary::RemainderSigned => b"srem",
        TypedBinary::And => b"and",
        TypedBinary::Or => b"or",
        TypedBinary::Xor => b"xor",
        TypedBinary::Equal => b"eq",
        TypedBinary::BelowUnsigned => b"ult",
        TypedBinary::AtMostUnsigned => b"ule",
        TypedBinary::BelowSigned => b"slt",
        TypedBinary::AtMostSigned => b"sle",
        TypedBinary::ShiftLeft => b"shl",
        TypedBinary::ShiftRight => b"shr",
        TypedBinary::ShiftRightSigned => b"sar",
    }
}

/// The word of a kind of variable.
pub(crate) fn kind_word(kind: VarKind) -> &'static [u8]
    ensures { result.now ≡ kind_word kind }
{
    match kind {
        VarKind::Input => b"i",
        VarKind::Reg => b"r",
        VarKind::Wire => b"w",
    }
}

/// The word of a kind of process.
pub(crate) fn process_word(kind: ProcessKind) -> &'static [u8]
    ensures { result.now ≡ process_word kind }
{
    match kind {
        ProcessKind::Assign => b"assign",
        ProcessKind::Comb => b"comb",
        ProcessKind::Clocked => b"clocked",
        ProcessKind::Initial => b"initial",
        ProcessKind::Cover => b"cover",
    }
}
