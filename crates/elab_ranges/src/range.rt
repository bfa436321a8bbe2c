ghost use Rattle.std.specs.Prelude.{◌≡◌, ◌≤◌, IfOk};
ghost use Rattle.scope_meaning.specs.Constants as constants;
ghost use Rattle.elab_ranges.specs.Bounds as spec;

use crate::bound::read_bound;
use crate::fault::RangeFault;
use elab_constants::{ConstantFault, Names};
use std::alloc::Global;
use vlog_tree::RangeExpr;

/// The size of a vector, from 1 to 128 bits, and the declared number of its lowest bit.
#[derive(Clone, Copy, Debug, PartialEq, Eq)]
pub struct Span {
    pub width: u8,
    pub low: u32,
}

/// The number of words of a memory, and the lowest number of a word.
#[derive(Clone, Copy, Debug, PartialEq, Eq)]
pub struct Words {
    pub count: u64,
    pub low: u32,
}

/// The vector between two bounds.
fn between(high: u32, low: u32) -> Result<Span, RangeFault>
    ensures value { result ≡ spec.between high low }
    ensures size { IfOk result (λ s. (1 ≤ s.width) × (s.width ≤ 128)) }
{
    if high < low {
        return Err(RangeFault::BadRange);
    }
    let above = high - low;
    if above > 127 {
        return Err(RangeFault::WidthPast128);
    }
    Ok(Span {
        width: above as u8 + 1,
        low,
    })
}

/// The words between two bounds, either of which may be the greater.
fn words_between(one: u32, other: u32) -> Words
    ensures { result ≡ spec.words_between one other }
{
    let low = one.min(other);
    Words {
        count: u64::from(one.max(other) - low) + 1,
        low,
    }
}

/// Both bounds, or the first thing that is wrong in one of them.
fn both_bounds(
    high: Result<Option<u32>, ConstantFault>,
    low: Result<Option<u32>, ConstantFault>,
) -> Result<(u32, u32), RangeFault>
    ensures { result ≡ spec.both_bounds high low }
{
    match (high, low) {
        (Err(ConstantFault::NoMemory), _) | (_, Err(ConstantFault::NoMemory)) => {
            Err(RangeFault::NoMemory)
        }
        (Err(ConstantFault::NotConstant), _) | (_, Err(ConstantFault::NotConstant)) => {
            Err(RangeFault::NotConstant)
        }
        (Err(ConstantFault::BadSelect), _) | (_, Err(ConstantFault::BadSelect)) => {
            Err(RangeFault::BadSelect)
        }
        (Ok(None), _) | (_, Ok(None)) => Err(RangeFault::BadRange),
        (Ok(Some(high)), Ok(Some(low))) => Ok((high, low)),
        _ => Err(RangeFault::WidthPast128),
    }
}

/// The size that the range of a vector declares: it descends, and has at most 128 bits.
pub fn vector_range<N: Names>(
    alloc: Global,
    names: &N,
    range: &RangeExpr,
) -> Result<Span, RangeFault>
    ensures value { (known : constants.Names) → N.environment names.now ≡ constants.constants known → spec.IsVector known range.now result }
    ensures size { IfOk result (λ s. (1 ≤ s.width) × (s.width ≤ 128)) }
{
    let high = read_bound(alloc, names, &range.high);
    let low = read_bound(alloc, names, &range.low);
    let all = both_bounds(high, low);
    match all {
        Ok((high, low)) => between(high, low),
        Err(fault) => Err(fault),
    }
}

/// The words that the range of a memory declares; its bounds may stand either way. How many a memory may have isn't tested.
pub fn memory_range<N: Names>(
    alloc: Global,
    names: &N,
    range: &RangeExpr,
) -> Result<Words, RangeFault>
    ensures { (known : constants.Names) → N.environment names.now ≡ constants.constants known → spec.IsMemory known range.now result }
{
    let high = read_bound(alloc, names, &range.high);
    let low = read_bound(alloc, names, &range.low);
    let all = both_bounds(high, low);
    match all {
        Ok((high, low)) => Ok(words_between(high, low)),
        Err(fault) => Err(fault),
    }
}
