ghost use Rattle.std.specs.Prelude.{◌≡◌, ◌≤◌, ◌<◌, ◌-◌, ◌%◌, ◌^◌, ◌↔◌, IsTrue};
ghost use Rattle.bit_values.specs.Values as value;

/// A value of `width` bits: the number `bits`, read as unsigned.
///
/// As IEEE 1364-2005 has vectors, with the two states 0 and 1.
#[derive(Clone, Copy, Debug, PartialEq, Eq)]
pub struct Bits {
    pub width: u8,
    pub bits: u128,
    ghost at_least: { 1 ≤ width },
    ghost at_most: { width ≤ 128 },
    ghost fits: { bits < 2 ^ width },
}

impl Bits {
    /// The value of `width` bits that is this number.
    pub fn new(width: u8, bits: u128) -> Bits
        requires at_least { 1 ≤ width }
        requires at_most { width ≤ 128 }
        requires fits { bits < 2 ^ width }
        ensures width { result.width ≡ width }
        ensures value { result.bits ≡ bits }
    {
        Bits { width, bits }
    }
}

/// The number modulo `2^width`.
pub(crate) fn reduced(number: u128, width: u8) -> Bits
    requires at_least { 1 ≤ width }
    requires at_most { width ≤ 128 }
    ensures width { result.width ≡ width }
    ensures value { result.bits ≡ number % 2 ^ width }
{
    Bits {
        width,
        bits: number & (u128::MAX >> (128 - width)),
    }
}

/// One bit: 1 where `holds`.
pub(crate) fn flag(holds: bool) -> Bits
    ensures width { result.width ≡ 1 }
    ensures value { result.bits ≡ value.flag holds }
{
    Bits {
        width: 1,
        bits: u128::from(holds),
    }
}

/// Whether the top bit is set, so that the signed reading is below 0.
pub(crate) fn is_negative(a: Bits) -> bool
    ensures { IsTrue result ↔ (2 ^ (a.width - 1) ≤ a.bits) }
{
    a.bits >> (a.width - 1) == 1
}

fn crosses_threads<T: Send + Sync>() {}

/// A value may be sent to another thread, and shared with one.
fn bits_cross_threads() {
    crosses_threads::<Bits>();
}
