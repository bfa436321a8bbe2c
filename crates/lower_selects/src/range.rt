ghost use Rattle.std.specs.Prelude.{◌≡◌, ℤ};
ghost use Rattle.source_meaning.specs.Meaning.{Meaning, fixed_integer};
ghost use Rattle.flat_constants.specs.Values.{IsValue, GivesValue};
ghost use Rattle.flat_constants.specs.Spans.{IsSpan};
ghost use Rattle.lower_selects.specs.Places.{GivesWidth, GivesRange};
ghost use Rattle.lower_selects.specs.Widths as spec;

use crate::width::Width;
use flat_constants::{ConstantFault, FixedValue, Span, count, distance};
use lower_nodes::ExpressionFault;

/// So many bits. No variable and no select has none or more than 128.
pub fn some_bits(bits: u8) -> Result<Width, ExpressionFault>
    ensures { spec.IsWidth bits result }
{
    if bits == 0 || bits > 128 {
        return Err(ExpressionFault::WidthPast128);
    }
    Ok(Width { bits })
}

/// A number of bits that may be selected.
fn sized(span: Span) -> Result<Width, ExpressionFault>
    ensures { (z : ℤ) → IsSpan z span → GivesWidth z result }
{
    match span {
        Span::Below1 => Err(ExpressionFault::BadSelect),
        Span::Bits(bits) => some_bits(bits),
        Span::Past128 => Err(ExpressionFault::WidthPast128),
    }
}

/// How many bits a constant says that there are.
pub(crate) fn width_of(value: Result<FixedValue, ConstantFault>) -> Result<Width, ExpressionFault>
    ensures { (m : Meaning) → GivesValue m value → GivesWidth (fixed_integer m) result }
{
    match value {
        Ok(found) => sized(count(found)),
        Err(_) => Err(ExpressionFault::NoMemory),
    }
}

/// A width beside a constant.
fn beside(
    width: Result<Width, ExpressionFault>,
    low: FixedValue,
) -> Result<(Width, FixedValue), ExpressionFault>
    ensures { result ≡ spec.beside width low }
{
    match width {
        Ok(width) => Ok((width, low)),
        Err(fault) => Err(fault),
    }
}

/// How many numbers there are between two constants, and the lower one.
fn range(high: FixedValue, low: FixedValue) -> Result<(Width, FixedValue), ExpressionFault>
    ensures { spec.IsRangeOf high low result }
{
    beside(sized(distance(high, low)), low)
}

fn range_with(
    high: FixedValue,
    low: Result<FixedValue, ConstantFault>,
) -> Result<(Width, FixedValue), ExpressionFault>
    ensures { (m n : Meaning) → IsValue m high → GivesValue n low → GivesRange m n result }
{
    match low {
        Ok(found) => range(high, found),
        Err(_) => Err(ExpressionFault::NoMemory),
    }
}

/// How many numbers there are between two constants, and the lower one, where both are there.
pub(crate) fn range_of(
    high: Result<FixedValue, ConstantFault>,
    low: Result<FixedValue, ConstantFault>,
) -> Result<(Width, FixedValue), ExpressionFault>
    ensures { (m n : Meaning) → GivesValue m high → GivesValue n low → GivesRange m n result }
{
    match high {
        Ok(found) => range_with(found, low),
        Err(_) => Err(ExpressionFault::NoMemory),
    }
}
