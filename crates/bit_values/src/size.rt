ghost use Rattle.std.specs.Prelude.{◌≡◌, ◌≤◌, ◌+◌, ◌%◌, ◌^◌};
ghost use Rattle.bit_values.specs.Values as value;

use crate::bitwise::not;
use crate::value::{Bits, is_negative, reduced};

/// The same number in at least as many bits.
fn widened(a: Bits, width: u8) -> Bits
    requires at_least { a.width ≤ width }
    requires at_most { width ≤ 128 }
    ensures width { result.width ≡ width }
    ensures value { result.bits ≡ a.bits }
{
    Bits {
        width,
        bits: a.bits,
    }
}

/// In at least as many bits: with copies of the sign bit above where `signed`, else with zeros.
pub fn extend(a: Bits, width: u8, signed: bool) -> Bits
    requires at_least { a.width ≤ width }
    requires at_most { width ≤ 128 }
    ensures width { result.width ≡ width }
    ensures value { result.bits ≡ value.extend a.width width signed a.bits }
{
    if signed && is_negative(a) {
        return not(widened(not(a), width));
    }
    widened(a, width)
}

/// The low bits, as an assignment to fewer bits keeps them.
pub fn truncate(a: Bits, width: u8) -> Bits
    requires at_least { 1 ≤ width }
    requires at_most { width ≤ a.width }
    ensures width { result.width ≡ width }
    ensures value { result.bits ≡ value.truncate width a.bits }
{
    reduced(a.bits, width)
}

/// The bits of `high` above those of `low`.
pub fn concat(high: Bits, low: Bits) -> Bits
    requires { high.width + low.width ≤ 128 }
    ensures width { result.width ≡ high.width + low.width }
    ensures value { result.bits ≡ value.concat low.width high.bits low.bits }
{
    Bits {
        width: high.width + low.width,
        bits: (high.bits << low.width) | low.bits,
    }
}
