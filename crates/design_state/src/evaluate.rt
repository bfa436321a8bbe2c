ghost use Rattle.std.specs.Prelude.{◌≡◌, ◌≤◌, ◌*◌, ◌⊎◌, IsTrue};
ghost use Rattle.design_meaning.specs.Values.{value_in, position_in, of_width, unary_value, binary_value};
ghost use Rattle.design_meaning.specs.Values as meaning;
ghost use Rattle.design_meaning.specs.WellTyped.{is_shift};
ghost use Rattle.design_state.specs.InDesign.{IsTypedIn, IsIndexIn};
ghost use Rattle.design_state.specs.Positions.{offset};

use crate::position::{Position, position_of, selected};
use crate::state::State;
use bit_values::Bits;
use design_tree::{Index, Typed, TypedBinary, TypedUnary};

/// An operator of one operand.
fn unary(op: TypedUnary, of: Bits) -> Bits
    ensures { unary_value op (of_width of.width of.bits) ≡ of_width result.width result.bits }
{
    match op {
        TypedUnary::Not => bit_values::not(of),
        TypedUnary::Neg => bit_values::neg(of),
        TypedUnary::ReduceAnd => bit_values::red_and(of),
        TypedUnary::ReduceOr => bit_values::red_or(of),
        TypedUnary::ReduceXor => bit_values::red_xor(of),
    }
}

/// An operator of two operands, which have one width unless it shifts.
fn binary(op: TypedBinary, left: Bits, right: Bits) -> Bits
    requires { IsTrue (is_shift op) ⊎ (left.width ≡ right.width) }
    ensures { binary_value op (of_width left.width left.bits) (of_width right.width right.bits) ≡ of_width result.width result.bits }
{
    match op {
        TypedBinary::Add => bit_values::add(left, right),
        TypedBinary::Sub => bit_values::sub(left, right),
        TypedBinary::Mul => bit_values::mul(left, right),
        TypedBinary::DivideUnsigned => bit_values::udiv(left, right),
        TypedBinary::DivideSigned => bit_values::sdiv(left, right),
        TypedBinary::RemainderUnsigned => bit_values::urem(left, right),
        TypedBinary::RemainderSigned => bit_values::srem(left, right),
        TypedBinary::And => bit_values::and(left, right),
        TypedBinary::Or => bit_values::or(left, right),
        TypedBinary::Xor => bit_values::xor(left, right),
        TypedBinary::Equal => bit_values::equal(left, right),
        TypedBinary::BelowUnsigned => bit_values::ult(left, right),
        TypedBinary::AtMostUnsigned => bit_values::ule(left, right),
        TypedBinary::BelowSigned => bit_values::slt(left, right),
        TypedBinary::AtMostSigned => bit_values::sle(left, right),
        TypedBinary::ShiftLeft => bit_values::shl(left, right),
        TypedBinary::ShiftRight => bit_values::shr(left, right),
        TypedBinary::ShiftRightSigned => bit_values::sar(left, right),
    }
}

/// A value so many times one after the other.
fn repeated(count: u8, of: Bits) -> Bits
    requires some { 1 ≤ count * of.width }
    requires most { count * of.width ≤ 128 }
    ensures width { result.width ≡ count * of.width }
    ensures value { result.bits ≡ meaning.repeated of.width of.bits count }
{
    let mut all = of;
    for done in 1..count {
        all = bit_values::concat(all, of);
    }
    all
}

/// The position that an index names.
#[cycle(value)]
pub fn position_at(at: &Index, state: &State) -> Position
    requires { IsIndexIn state.now at.now }
    ensures { offset result ≡ position_in state.now at.now }
{
    position_of(value(at.value.get(), state), at.low, at.signed)
}

/// The value of an expression.
#[cycle(value)]
pub fn value(e: &Typed, state: &State) -> Bits
    requires { IsTypedIn state.now e.now }
    ensures { value_in state.now e.now ≡ of_width result.width result.bits }
{
    match e {
        Typed::Number { width, value } => {
            return Bits {
                width: *width,
                bits: *value,
            };
        }
        Typed::Var { var } => return state.word(*var, Position::At(0)),
        Typed::Word { var, at } => return state.word(*var, position_at(at, state)),
        Typed::Part { width, of, at } => {
            return selected(value(of.get(), state), position_at(at, state), *width);
        }
        Typed::ZeroExtend { width, of } => {
            return bit_values::extend(value(of.get(), state), *width, false);
        }
        Typed::SignExtend { width, of } => {
            return bit_values::extend(value(of.get(), state), *width, true);
        }
        Typed::Truncate { width, of } => {
            return bit_values::truncate(value(of.get(), state), *width);
        }
        Typed::Unary { op, of } => return unary(*op, value(of.get(), state)),
        Typed::Binary { op, left, right } => {
            return binary(*op, value(left.get(), state), value(right.get(), state));
        }
        Typed::Join { high, low } => {
            return bit_values::concat(value(high.get(), state), value(low.get(), state));
        }
        Typed::Repeat { count, of } => return repeated(*count, value(of.get(), state)),
        Typed::Choose { test, yes, no } => {
            if value(test.get(), state).bits == 0 {
                return value(no.get(), state);
            }
            return value(yes.get(), state);
        }
    }
}
