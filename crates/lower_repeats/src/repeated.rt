ghost use Rattle.std.specs.Prelude.{◌≡◌, ◌≤◌, ℤ, List, IfOk, true};
ghost use Rattle.flat_constants.specs.Spans.{IsSpan};
ghost use Rattle.elab_types.specs.declared.flat_source.FlatVar.{FlatVar};
ghost use Rattle.elab_types.specs.declared.flat_expression.FlatExpr.{FlatExpr};
ghost use Rattle.elab_types.specs.declared.flat_expression.FlatExpr.TheVariants as e;
ghost use Rattle.design_tree.specs.declared.typed.Typed.TheVariants as t;
ghost use Rattle.source_meaning.specs.Meaning.{Meaning, fixed_integer};
ghost use Rattle.flat_meaning.specs.Expressions.{meaning};
ghost use Rattle.flat_constants.specs.Values.{GivesValue};
ghost use Rattle.lower_meaning.specs.Constants.{is_right};
ghost use Rattle.lower_meaning.specs.SoundExpressions.{has_some};
ghost use Rattle.lower_repeats.specs.Repeats as spec;
ghost use Rattle.lower_nodes.specs.Joins.{Gathers};
ghost use Rattle.lower_nodes.specs.Reads.{Lowers};

use design_tree::Typed;
use flat_constants::{ConstantFault, FixedValue, Span, count};
use lower_nodes::{ExpressionFault, Gathering, Parts, Reading, alone, both, joined};
use sqlite_items::Boxed;
use std::alloc::{AllocError, Global};

/// A count, which is refused where it is below 1. 129 stands for any more than 128.
fn counted(span: Span) -> Result<u8, ExpressionFault>
    ensures { (z : ℤ) → IsSpan z span → spec.GivesCount z result }
{
    match span {
        Span::Below1 => Err(ExpressionFault::BadSelect),
        Span::Bits(k) => Ok(k),
        Span::Past128 => Ok(129),
    }
}

/// The count that a constant says.
pub fn read_count(value: Result<FixedValue, ConstantFault>) -> Result<u8, ExpressionFault>
    ensures { (m : Meaning) → GivesValue m value → spec.GivesCount (fixed_integer m) result }
{
    match value {
        Ok(found) => counted(count(found)),
        Err(_) => Err(ExpressionFault::NoMemory),
    }
}

fn repeat(alloc: Global, count: u8, of: Typed) -> Result<Typed, AllocError>
    ensures { IfOk result (λ a. a ≡ t.Repeat count of) }
{
    let of = Boxed::new(alloc, of)?;
    Ok(Typed::Repeat { count, of })
}

/// Copies that have so many bits together.
fn repeat_bits(alloc: Global, count: u8, bits: u8, all: Typed) -> Reading
    ensures { spec.HasCopies count bits all result }
{
    if bits == 0 {
        return Err(ExpressionFault::WidthPast128);
    }
    if bits > 128 {
        return Err(ExpressionFault::WidthPast128);
    }
    match repeat(alloc, count, all) {
        Ok(copies) => Ok(alone(bits, false, copies)),
        Err(_) => Err(ExpressionFault::NoMemory),
    }
}

/// What has so many bits, so many times.
fn repeat_all(alloc: Global, count: u8, size: u8, all: Typed) -> Reading
    requires { 1 ≤ size }
    ensures { spec.IsRepeated count size all result }
{
    match count.checked_mul(size) {
        Some(bits) => repeat_bits(alloc, count, bits, all),
        None => Err(ExpressionFault::WidthPast128),
    }
}

/// Parts in braces so many times.
fn repeated(alloc: Global, count: u8, parts: Parts) -> Reading
    ensures { spec.IsRepeating count parts result }
{
    match joined(alloc, parts) {
        Ok((size, all)) => repeat_all(alloc, count, size, all),
        Err(fault) => Err(fault),
    }
}

/// Parts in braces with their count.
pub fn read_repeat(
    alloc: Global,
    count: Result<FixedValue, ConstantFault>,
    parts: Gathering,
) -> Reading
    ensures { (vars : List FlatVar) (n : FlatExpr) (ps : List FlatExpr) → is_right n ≡ true → has_some ps ≡ true
        → GivesValue (meaning vars n) count → Gathers vars ps parts → Lowers vars (e.Repeat n ps) result }
{
    let count = read_count(count);
    let all = both(count, parts);
    match all {
        Ok((count, parts)) => repeated(alloc, count, parts),
        Err(fault) => Err(fault),
    }
}
