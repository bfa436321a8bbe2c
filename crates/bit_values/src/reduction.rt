ghost use Rattle.std.specs.Prelude.{◌≡◌};
ghost use Rattle.bit_values.specs.Values as value;

use crate::value::{Bits, flag};

/// Whether all bits are ones.
pub fn red_and(a: Bits) -> Bits
    ensures width { result.width ≡ 1 }
    ensures value { result.bits ≡ value.red_and a.width a.bits }
{
    flag(a.bits == u128::MAX >> (128 - a.width))
}

/// Whether some bit is a one.
pub fn red_or(a: Bits) -> Bits
    ensures width { result.width ≡ 1 }
    ensures value { result.bits ≡ value.red_or a.bits }
{
    flag(a.bits != 0)
}

/// The parity of the number of ones.
pub fn red_xor(a: Bits) -> Bits
    ensures width { result.width ≡ 1 }
    ensures value { result.bits ≡ value.red_xor a.bits }
{
    flag(a.bits.count_ones() % 2 == 1)
}
