ghost use Rattle.std.specs.Prelude.{◌≡◌, ◌≤◌, false, IfOk, Some, Err};
ghost use Rattle.vlog_tree.specs.declared.expression.RangeExpr.{RangeExpr as Range};
ghost use Rattle.scope_meaning.specs.Constants as constants;
ghost use Rattle.elab_ranges.specs.Bounds.{IsVector};
ghost use Rattle.flat_source_meaning.specs.Variables.{span_or_scalar};
ghost use Rattle.flat_variables.specs.Sizes.{span_of};

use cov_types::NoMemory;
use elab_constants::Names;
use elab_ranges::{RangeFault, vector_range};
use std::alloc::Global;
use vlog_tree::{RangeExpr, Shared};

/// How many bits a variable has, from 1 to 128, the declared number of the lowest, and whether it is a vector.
#[derive(Clone, Copy, Debug)]
pub(crate) struct Size {
    pub(crate) width: u8,
    pub(crate) low: u32,
    pub(crate) vector: bool,
}

/// One bit, which is no vector.
fn scalar() -> Size
    ensures { result ≡ record { width = 1; low = 0; vector = false } }
{
    Size {
        width: 1,
        low: 0,
        vector: false,
    }
}

/// The size where the range has none.
fn of_fault(fault: RangeFault) -> Result<Size, NoMemory>
    ensures value { (known : constants.Names) (range : Range) → IsVector known range (Err fault)
        → IfOk result (λ size. span_of size ≡ span_or_scalar known (Some range)) }
    ensures width { IfOk result (λ size. (1 ≤ size.width) × (size.width ≤ 128)) }
{
    match fault {
        RangeFault::NoMemory => Err(NoMemory),
        RangeFault::NotConstant => Ok(scalar()),
        RangeFault::BadSelect => Ok(scalar()),
        RangeFault::BadRange => Ok(scalar()),
        RangeFault::WidthPast128 => Ok(scalar()),
    }
}

/// The size that a range declares.
fn of_range<N: Names>(alloc: Global, names: &N, range: &RangeExpr) -> Result<Size, NoMemory>
    ensures value { (known : constants.Names) → N.environment names.now ≡ constants.constants known
        → IfOk result (λ size. span_of size ≡ span_or_scalar known (Some range.now)) }
    ensures width { IfOk result (λ size. (1 ≤ size.width) × (size.width ≤ 128)) }
{
    match vector_range(alloc, names, range) {
        Ok(span) => Ok(Size {
            width: span.width,
            low: span.low,
            vector: true,
        }),
        Err(fault) => of_fault(fault),
    }
}

/// The size of a declaration with or without a range.
pub(crate) fn declared_size<N: Names>(
    alloc: Global,
    names: &N,
    range: &Option<RangeExpr>,
) -> Result<Size, NoMemory>
    ensures value { (known : constants.Names) → N.environment names.now ≡ constants.constants known
        → IfOk result (λ size. span_of size ≡ span_or_scalar known range.now) }
    ensures width { IfOk result (λ size. (1 ≤ size.width) × (size.width ≤ 128)) }
{
    match range {
        Some(range) => of_range(alloc, names, range),
        None => Ok(scalar()),
    }
}

/// The size of a port, which may share its range with the ports before it.
pub(crate) fn port_size<N: Names>(
    alloc: Global,
    names: &N,
    range: &Option<Shared<RangeExpr>>,
) -> Result<Size, NoMemory>
    ensures value { (known : constants.Names) → N.environment names.now ≡ constants.constants known
        → IfOk result (λ size. span_of size ≡ span_or_scalar known range.now) }
    ensures width { IfOk result (λ size. (1 ≤ size.width) × (size.width ≤ 128)) }
{
    match range {
        Some(range) => of_range(alloc, names, range.get()),
        None => Ok(scalar()),
    }
}
