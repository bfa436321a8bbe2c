ghost use Rattle.std.specs.Prelude.{◌≡◌};
ghost use Rattle.bit_values.specs.Values as value;

use crate::value::{Bits, flag, is_negative};

/// Whether the first is below the second, both read as unsigned.
pub fn ult(a: Bits, b: Bits) -> Bits
    requires { a.width ≡ b.width }
    ensures width { result.width ≡ 1 }
    ensures value { result.bits ≡ value.ult a.bits b.bits }
{
    flag(a.bits < b.bits)
}

/// Whether the first is below or equal to the second, both read as unsigned.
pub fn ule(a: Bits, b: Bits) -> Bits
    requires { a.width ≡ b.width }
    ensures width { result.width ≡ 1 }
    ensures value { result.bits ≡ value.ule a.bits b.bits }
{
    flag(a.bits <= b.bits)
}

/// Whether the first is below the second, both read as signed.
pub fn slt(a: Bits, b: Bits) -> Bits
    requires { a.width ≡ b.width }
    ensures width { result.width ≡ 1 }
    ensures value { result.bits ≡ value.slt a.width a.bits b.bits }
{
    let below = if is_negative(a) == is_negative(b) {
        a.bits < b.bits
    } else {
        is_negative(a)
    };
    flag(below)
}

/// Whether the first is below or equal to the second, both read as signed.
pub fn sle(a: Bits, b: Bits) -> Bits
    requires { a.width ≡ b.width }
    ensures width { result.width ≡ 1 }
    ensures value { result.bits ≡ value.sle a.width a.bits b.bits }
{
    let up_to = if is_negative(a) == is_negative(b) {
        a.bits <= b.bits
    } else {
        is_negative(a)
    };
    flag(up_to)
}

/// Whether the two are equal.
pub fn equal(a: Bits, b: Bits) -> Bits
    requires { a.width ≡ b.width }
    ensures width { result.width ≡ 1 }
    ensures value { result.bits ≡ value.equal a.bits b.bits }
{
    flag(a.bits == b.bits)
}
