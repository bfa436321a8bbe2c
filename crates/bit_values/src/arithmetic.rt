ghost use Rattle.std.specs.Prelude.{◌≡◌, unsigned_abs};
ghost use Rattle.bit_values.specs.Values as value;

use crate::value::{Bits, is_negative, reduced};

/// The sum. A carry out of the top bit is lost.
pub fn add(a: Bits, b: Bits) -> Bits
    requires { a.width ≡ b.width }
    ensures width { result.width ≡ a.width }
    ensures value { result.bits ≡ value.add a.width a.bits b.bits }
{
    reduced(a.bits.wrapping_add(b.bits), a.width)
}

/// The difference. A borrow from above the top bit is lost.
pub fn sub(a: Bits, b: Bits) -> Bits
    requires { a.width ≡ b.width }
    ensures width { result.width ≡ a.width }
    ensures value { result.bits ≡ value.sub a.width a.bits b.bits }
{
    reduced(a.bits.wrapping_sub(b.bits), a.width)
}

/// The product. Bits above the top bit are lost.
pub fn mul(a: Bits, b: Bits) -> Bits
    requires { a.width ≡ b.width }
    ensures width { result.width ≡ a.width }
    ensures value { result.bits ≡ value.mul a.width a.bits b.bits }
{
    reduced(a.bits.wrapping_mul(b.bits), a.width)
}

/// The negative, which is 0 for 0 and the value itself where only its top bit is set.
pub fn neg(a: Bits) -> Bits
    ensures width { result.width ≡ a.width }
    ensures value { result.bits ≡ value.neg a.width a.bits }
{
    reduced(0u128.wrapping_sub(a.bits), a.width)
}

/// The unsigned quotient. With two states a quotient by 0 is 0.
pub fn udiv(a: Bits, b: Bits) -> Bits
    requires { a.width ≡ b.width }
    ensures width { result.width ≡ a.width }
    ensures value { result.bits ≡ value.udiv a.bits b.bits }
{
    Bits {
        width: a.width,
        bits: a.bits.checked_div(b.bits).unwrap_or(0),
    }
}

/// The unsigned remainder. With two states a remainder by 0 is 0.
pub fn urem(a: Bits, b: Bits) -> Bits
    requires { a.width ≡ b.width }
    ensures width { result.width ≡ a.width }
    ensures value { result.bits ≡ value.urem a.bits b.bits }
{
    Bits {
        width: a.width,
        bits: a.bits.checked_rem(b.bits).unwrap_or(0),
    }
}

/// The distance of the signed reading from 0.
fn magnitude(a: Bits) -> u128
    ensures { result ≡ unsigned_abs (value.signed a.width a.bits) }
{
    if is_negative(a) { neg(a).bits } else { a.bits }
}

/// The signed quotient, truncated toward zero. With two states a quotient by 0 is 0, and the quotient
/// of the least number by -1, which needs one bit more, is the least number again.
pub fn sdiv(a: Bits, b: Bits) -> Bits
    requires { a.width ≡ b.width }
    ensures width { result.width ≡ a.width }
    ensures value { result.bits ≡ value.sdiv a.width a.bits b.bits }
{
    if b.bits == 0 {
        return reduced(0, a.width);
    }
    let quotient = reduced(magnitude(a) / magnitude(b), a.width);
    if is_negative(a) == is_negative(b) {
        quotient
    } else {
        neg(quotient)
    }
}

/// The signed remainder, with the sign of the first operand. With two states a remainder by 0 is 0.
pub fn srem(a: Bits, b: Bits) -> Bits
    requires { a.width ≡ b.width }
    ensures width { result.width ≡ a.width }
    ensures value { result.bits ≡ value.srem a.width a.bits b.bits }
{
    if b.bits == 0 {
        return reduced(0, a.width);
    }
    let remainder = reduced(magnitude(a) % magnitude(b), a.width);
    let negative = is_negative(a);
    if negative { neg(remainder) } else { remainder }
}
