ghost use Rattle.std.specs.Prelude.{◌≡◌, ◌≤◌, ◌-◌, ◌^◌, ◌%◌, ◌↔◌, IsTrue};
ghost use Rattle.bit_values.specs.Values as value;
ghost use Rattle.design_meaning.specs.Values.{position, of_width};
ghost use Rattle.design_state.specs.Positions.{offset};

use bit_values::Bits;

/// A position of a bit or a word. An index may name one that the variable doesn't have.
#[derive(Clone, Copy, Debug)]
pub enum Position {
    /// So many above the lowest.
    At(u128),
    /// Below the lowest: 0 is the one next to it.
    Before(u128),
}

/// Whether the top bit is set, so that the signed reading is below 0.
pub fn is_negative(value: Bits) -> bool
    ensures { IsTrue result ↔ (2 ^ (value.width - 1) ≤ value.bits) }
{
    value.bits >> (value.width - 1) == 1
}

/// The position that an index names: its value, read as signed or not, less the lowest position.
pub(crate) fn position_of(value: Bits, low: u32, signed: bool) -> Position
    ensures { offset result ≡ position low signed (of_width value.width value.bits) }
{
    let low = u128::from(low);
    if signed && is_negative(value) {
        let below = bit_values::not(value).bits;
        return Position::Before(below + low);
    }
    if value.bits >= low {
        return Position::At(value.bits - low);
    }
    Position::Before(low - value.bits - 1)
}

/// The low bits of a number.
fn low_bits(number: u128, width: u8) -> Bits
    requires some { 1 ≤ width }
    requires most { width ≤ 128 }
    ensures width { result.width ≡ width }
    ensures value { result.bits ≡ number % 2 ^ width }
{
    bit_values::truncate(
        Bits {
            width: 128,
            bits: number,
        },
        width,
    )
}

/// So many bits from a position on; bits outside read 0.
pub fn selected(of: Bits, at: Position, width: u8) -> Bits
    requires some { 1 ≤ width }
    requires most { width ≤ 128 }
    ensures width { result.width ≡ width }
    ensures value { result.bits ≡ value.select width of.bits (offset at) }
{
    match at {
        Position::At(at) => {
            if at >= 128 {
                return low_bits(0, width);
            }
            return low_bits(of.bits >> (at as u32), width);
        }
        Position::Before(before) => {
            if before >= 127 {
                return low_bits(0, width);
            }
            return low_bits(of.bits << (before as u32 + 1), width);
        }
    }
}

/// A word with a part from a position on; bits of the part outside the word are left out.
pub(crate) fn replaced(word: Bits, at: Position, part: Bits) -> Bits
    ensures width { result.width ≡ word.width }
    ensures value { result.bits ≡ value.replace word.width word.bits (offset at) part.width part.bits }
{
    match at {
        Position::At(at) => {
            if at >= u128::from(word.width) {
                return word;
            }
            return bit_values::replace(word, at as i128, part);
        }
        Position::Before(before) => {
            if before >= 127 {
                return word;
            }
            return bit_values::replace(word, -1 - before as i128, part);
        }
    }
}
