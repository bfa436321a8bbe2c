ghost use Rattle.std.specs.Prelude.{◌≡◌, ◌≤◌, ◌<◌, ◌*◌, ◌/◌, ◌^◌, pos};
ghost use Rattle.bit_values.specs.Values as value;

use crate::value::{Bits, reduced};

/// `width` bits of `a` from the position `low` on, which may lie anywhere: bits outside `a` read 0.
pub fn select(a: Bits, low: i128, width: u8) -> Bits
    requires at_least { 1 ≤ width }
    requires at_most { width ≤ 128 }
    ensures width { result.width ≡ width }
    ensures value { result.bits ≡ value.select width a.bits low }
{
    let distance = low.unsigned_abs();
    if distance >= 128 {
        return reduced(0, width);
    }
    if low >= 0 {
        return reduced(a.bits >> (distance as u32), width);
    }
    reduced(a.bits << (distance as u32), width)
}

/// The bits from `low` on in their places, and zeros below them.
fn bits_from(bits: u128, low: u8) -> u128
    ensures { result ≡ bits / 2 ^ low * 2 ^ low }
{
    if low >= 128 {
        return 0;
    }
    (bits >> low) << low
}

/// `a` with `part` from its bit `low` on, but for the bits of `part` past the top.
fn placed(a: Bits, low: u8, part: Bits) -> Bits
    requires { low < a.width }
    ensures width { result.width ≡ a.width }
    ensures value { result.bits ≡ value.replace a.width a.bits (pos low) part.width part.bits }
{
    let above = bits_from(a.bits, low + part.width);
    let below = a.bits & ((1 << low) - 1);
    reduced(above | (part.bits << low) | below, a.width)
}

/// `a` with `part` from the position `low` on, which may lie anywhere: bits of `part` outside `a` are
/// left out, and the other bits of `a` stay.
pub fn replace(a: Bits, low: i128, part: Bits) -> Bits
    ensures width { result.width ≡ a.width }
    ensures value { result.bits ≡ value.replace a.width a.bits low part.width part.bits }
{
    let distance = low.unsigned_abs();
    if low >= 0 {
        if distance >= u128::from(a.width) {
            return a;
        }
        return placed(a, distance as u8, part);
    }
    if distance >= u128::from(part.width) {
        return a;
    }
    let lost = distance as u8;
    let rest = Bits {
        width: part.width - lost,
        bits: part.bits >> lost,
    };
    placed(a, 0, rest)
}
