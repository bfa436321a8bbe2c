ghost use Rattle.std.specs.Prelude.{◌≡◌, ◌≤◌, ◌+ℤ◌, ◌-ℤ◌, pos, negsuc, ◌+◌};
ghost use Rattle.source_meaning.specs.Meaning.{Meaning, fixed_integer};
ghost use Rattle.flat_constants.specs.Values.{IsValue};
ghost use Rattle.flat_constants.specs.Spans.{IsSpan, integer_of};

use crate::value::FixedValue;

/// A number of bits, or of copies.
#[derive(Clone, Copy)]
pub enum Span {
    /// It is below 1.
    Below1,
    /// From 1 to 128.
    Bits(u8),
    /// It is above 128.
    Past128,
}

/// An integer: the number, or where it is negative, one less than the number that it is below 0.
#[derive(Clone, Copy)]
struct SignedNumber {
    negative: bool,
    number: u128,
}

fn integer(of: FixedValue) -> SignedNumber
    ensures { (m : Meaning) → IsValue m of → fixed_integer m ≡ integer_of result.negative result.number }
{
    let value = of.value;
    if of.signed && value.bits >> (value.width - 1) == 1 {
        return SignedNumber {
            negative: true,
            number: bit_values::not(value).bits,
        };
    }
    SignedNumber {
        negative: false,
        number: value.bits,
    }
}

fn span_of(number: u128) -> Span
    ensures { IsSpan (pos number) result }
{
    if number == 0 {
        return Span::Below1;
    }
    if number > 128 {
        return Span::Past128;
    }
    Span::Bits(number as u8)
}

fn one_more(number: u128) -> Span
    ensures { IsSpan (pos (number + 1)) result }
{
    if number >= 128 {
        return Span::Past128;
    }
    Span::Bits(number as u8 + 1)
}

/// How many a constant says that there are.
pub fn count(of: FixedValue) -> Span
    ensures { (m : Meaning) → IsValue m of → IsSpan (fixed_integer m) result }
{
    let number = integer(of);
    if number.negative {
        return Span::Below1;
    }
    span_of(number.number)
}

/// The numbers from one up to another.
fn ascending(low: u128, high: u128) -> Span
    ensures { IsSpan ((pos high -ℤ pos low) +ℤ pos 1) result }
{
    if high < low {
        return Span::Below1;
    }
    one_more(high - low)
}

/// The numbers from one below 0 up to one that isn't.
fn apart(low: u128, high: u128) -> Span
    ensures { IsSpan ((pos high -ℤ negsuc low) +ℤ pos 1) result }
{
    if low > 128 || high > 128 {
        return Span::Past128;
    }
    span_of(high + low + 2)
}

fn between(high: SignedNumber, low: SignedNumber) -> Span
    ensures { IsSpan ((integer_of high.negative high.number -ℤ integer_of low.negative low.number) +ℤ pos 1) result }
{
    if high.negative {
        if low.negative {
            return ascending(high.number, low.number);
        }
        return Span::Below1;
    }
    if low.negative {
        return apart(low.number, high.number);
    }
    ascending(low.number, high.number)
}

/// How many numbers a range has: those from the low bound to the high one.
pub fn distance(high: FixedValue, low: FixedValue) -> Span
    ensures { (m n : Meaning) → IsValue m high → IsValue n low → IsSpan ((fixed_integer m -ℤ fixed_integer n) +ℤ pos 1) result }
{
    between(integer(high), integer(low))
}
