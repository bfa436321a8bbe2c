ghost use Rattle.std.specs.Prelude.{◌≡◌, ◌&&◌, ◌||◌, ◌==◌, ◌^◌, nat_le, nat_lt};
ghost use Rattle.design_meaning.specs.WellTyped as typed;
ghost use Rattle.design_meaning.specs.Widths as widths;

use design_tree::{TypedBinary, TypedUnary};

/// Whether a width is 1 to 128.
pub(crate) fn is_width(width: u16) -> bool
    ensures { result ≡ typed.is_width width }
{
    1 <= width && width <= 128
}

/// Whether a number fits a width.
pub(crate) fn may_be_number(width: u8, value: u128) -> bool
    ensures { result ≡ (typed.is_width width && nat_lt value (2 ^ width)) }
{
    is_width(width as u16) && fits(width, value)
}

fn fits(width: u8, value: u128) -> bool
    ensures { result ≡ nat_lt value (2 ^ width) }
{
    if width >= 128 {
        return true;
    }
    value < 1u128 << width
}

/// Whether a value may be extended to a width.
pub(crate) fn may_extend(width: u8, of: u8) -> bool
    ensures { result ≡ (typed.is_width width && nat_le of width) }
{
    is_width(width as u16) && of <= width
}

/// Whether a value may be cut to a width.
pub(crate) fn may_cut(width: u8, of: u8) -> bool
    ensures { result ≡ (typed.is_width width && nat_le width of) }
{
    is_width(width as u16) && width <= of
}

/// Whether operands of these widths go together.
pub(crate) fn may_meet(op: TypedBinary, left: u8, right: u8) -> bool
    ensures { result ≡ (typed.is_shift op || left == right) }
{
    is_shift(op) || left == right
}

fn is_shift(op: TypedBinary) -> bool
    ensures { result ≡ typed.is_shift op }
{
    match op {
        TypedBinary::ShiftLeft | TypedBinary::ShiftRight | TypedBinary::ShiftRightSigned => true,
        _ => false,
    }
}

/// Whether one of two values of these widths may be chosen by a test.
pub(crate) fn may_choose(test: u8, left: u8, right: u8) -> bool
    ensures { result ≡ (test == 1 && left == right) }
{
    test == 1 && left == right
}

/// The width of an operator's value.
pub(crate) fn unary_width(op: TypedUnary, of: u8) -> u8
    ensures { result ≡ widths.unary_width op of }
{
    match op {
        TypedUnary::Not | TypedUnary::Neg => of,
        TypedUnary::ReduceAnd | TypedUnary::ReduceOr | TypedUnary::ReduceXor => 1,
    }
}

/// The width of an operator's value.
pub(crate) fn binary_width(op: TypedBinary, left: u8) -> u8
    ensures { result ≡ widths.binary_width op left }
{
    match op {
        TypedBinary::Equal
        | TypedBinary::BelowUnsigned
        | TypedBinary::AtMostUnsigned
        | TypedBinary::BelowSigned
        | TypedBinary::AtMostSigned => 1,
        _ => left,
    }
}
