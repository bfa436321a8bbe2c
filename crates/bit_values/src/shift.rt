ghost use Rattle.std.specs.Prelude.{◌≡◌};
ghost use Rattle.bit_values.specs.Values as value;

use crate::bitwise::not;
use crate::value::{Bits, is_negative, reduced};

/// Moved to the left, with zeros from the right: 0 where it is moved by its width or more.
pub fn shl(a: Bits, by: Bits) -> Bits
    ensures width { result.width ≡ a.width }
    ensures value { result.bits ≡ value.shl a.width a.bits by.bits }
{
    if by.bits >= 128 {
        return reduced(0, a.width);
    }
    reduced(a.bits << (by.bits as u32), a.width)
}

/// Moved to the right, with zeros from the left: 0 where it is moved by its width or more.
pub fn shr(a: Bits, by: Bits) -> Bits
    ensures width { result.width ≡ a.width }
    ensures value { result.bits ≡ value.shr a.bits by.bits }
{
    if by.bits >= 128 {
        return reduced(0, a.width);
    }
    reduced(a.bits >> (by.bits as u32), a.width)
}

/// Moved to the right, with copies of the sign bit from the left: all sign bits where it is moved by
/// its width or more.
pub fn sar(a: Bits, by: Bits) -> Bits
    ensures width { result.width ≡ a.width }
    ensures value { result.bits ≡ value.sar a.width a.bits by.bits }
{
    if is_negative(a) {
        not(shr(not(a), by))
    } else {
        shr(a, by)
    }
}
