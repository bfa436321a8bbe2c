ghost use Rattle.std.specs.Prelude.{◌≡◌, bit_and, bit_or, bit_xor};
ghost use Rattle.bit_values.specs.Values as value;

use crate::value::{Bits, reduced};

/// Each bit the `and` of the operands' bits.
pub fn and(a: Bits, b: Bits) -> Bits
    requires { a.width ≡ b.width }
    ensures width { result.width ≡ a.width }
    ensures value { result.bits ≡ bit_and a.bits b.bits }
{
    Bits {
        width: a.width,
        bits: a.bits & b.bits,
    }
}

/// Each bit the `or` of the operands' bits.
pub fn or(a: Bits, b: Bits) -> Bits
    requires { a.width ≡ b.width }
    ensures width { result.width ≡ a.width }
    ensures value { result.bits ≡ bit_or a.bits b.bits }
{
    Bits {
        width: a.width,
        bits: a.bits | b.bits,
    }
}

/// Each bit the exclusive `or` of the operands' bits.
pub fn xor(a: Bits, b: Bits) -> Bits
    requires { a.width ≡ b.width }
    ensures width { result.width ≡ a.width }
    ensures value { result.bits ≡ bit_xor a.bits b.bits }
{
    Bits {
        width: a.width,
        bits: a.bits ^ b.bits,
    }
}

/// Each bit turned.
pub fn not(a: Bits) -> Bits
    ensures width { result.width ≡ a.width }
    ensures value { result.bits ≡ value.not a.width a.bits }
{
    reduced(!a.bits, a.width)
}
