ghost use Rattle.std.specs.Prelude.{◌≡◌, ◌≤◌};
ghost use Rattle.source_meaning.specs.Operators.{quotient, remainder, filled_shift};
ghost use Rattle.elab_constants.specs.Terms as spec;

use crate::term::{Arithmetic, Shift, Term};
use bit_values::Bits;

/// A value at another size.
fn at_size(of: Bits, size: u8, by_sign: bool) -> Bits
    requires at_least { 1 ≤ size }
    requires at_most { size ≤ 128 }
    ensures width { result.width ≡ size }
    ensures value { result.bits ≡ spec.at_size of.width size by_sign of.bits }
{
    if of.width < size {
        return bit_values::extend(of, size, by_sign);
    }
    if size < of.width {
        return bit_values::truncate(of, size);
    }
    of
}

/// An operator of two operands of one size.
fn arithmetic(op: Arithmetic, by_sign: bool, left: Bits, right: Bits) -> Bits
    requires { left.width ≡ right.width }
    ensures width { result.width ≡ left.width }
    ensures value { result.bits ≡ spec.arithmetic_value op left.width by_sign left.bits right.bits }
{
    match op {
        Arithmetic::Add => bit_values::add(left, right),
        Arithmetic::Subtract => bit_values::sub(left, right),
        Arithmetic::Multiply => bit_values::mul(left, right),
        Arithmetic::Divide => quotient(by_sign, left, right),
        Arithmetic::Remainder => remainder(by_sign, left, right),
        Arithmetic::And => bit_values::and(left, right),
        Arithmetic::Or => bit_values::or(left, right),
        Arithmetic::Xor => bit_values::xor(left, right),
        Arithmetic::Xnor => bit_values::not(bit_values::xor(left, right)),
    }
}

fn quotient(by_sign: bool, left: Bits, right: Bits) -> Bits
    requires { left.width ≡ right.width }
    ensures width { result.width ≡ left.width }
    ensures value { result.bits ≡ quotient left.width by_sign left.bits right.bits }
{
    if by_sign {
        return bit_values::sdiv(left, right);
    }
    bit_values::udiv(left, right)
}

fn remainder(by_sign: bool, left: Bits, right: Bits) -> Bits
    requires { left.width ≡ right.width }
    ensures width { result.width ≡ left.width }
    ensures value { result.bits ≡ remainder left.width by_sign left.bits right.bits }
{
    if by_sign {
        return bit_values::srem(left, right);
    }
    bit_values::urem(left, right)
}

/// A value shifted by a number.
fn shifted(op: Shift, by_sign: bool, of: Bits, by: Bits) -> Bits
    ensures width { result.width ≡ of.width }
    ensures value { result.bits ≡ spec.shift_value op of.width by_sign of.bits by.bits }
{
    match op {
        Shift::Left => bit_values::shl(of, by),
        Shift::Right => bit_values::shr(of, by),
        Shift::Arithmetic => filled(by_sign, of, by),
    }
}

fn filled(by_sign: bool, of: Bits, by: Bits) -> Bits
    ensures width { result.width ≡ of.width }
    ensures value { result.bits ≡ filled_shift of.width by_sign of.bits by.bits }
{
    if by_sign {
        return bit_values::sar(of, by);
    }
    bit_values::shr(of, by)
}

/// The value of a term at the size and sign of a context.
pub(crate) fn value(term: &Term, size: u8, by_sign: bool) -> Bits
    requires at_least { 1 ≤ size }
    requires at_most { size ≤ 128 }
    ensures width { result.width ≡ size }
    ensures value { result.bits ≡ spec.term_value size by_sign term.now }
{
    match term {
        Term::Number(of) => return at_size(*of, size, by_sign),
        Term::Negative(of) => return bit_values::neg(value(of.get(), size, by_sign)),
        Term::Complement(of) => return bit_values::not(value(of.get(), size, by_sign)),
        Term::Arithmetic { op, left, right } => {
            return arithmetic(
                *op,
                by_sign,
                value(left.get(), size, by_sign),
                value(right.get(), size, by_sign),
            );
        }
        Term::Shift { op, of, by } => {
            return shifted(*op, by_sign, value(of.get(), size, by_sign), *by);
        }
    }
}
