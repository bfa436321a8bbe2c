ghost use Rattle.std.specs.Prelude.{◌≡◌};
ghost use Rattle.elab_faults.specs.Flaws as spec;

use elab_constants::ConstantFault;
use elab_ranges::RangeFault;

/// The one that comes first; want of memory comes before all.
pub fn earlier(one: RangeFault, other: RangeFault) -> RangeFault
    ensures { result ≡ spec.earlier one other }
{
    match (one, other) {
        (RangeFault::NoMemory, _) | (_, RangeFault::NoMemory) => RangeFault::NoMemory,
        (RangeFault::NotConstant, _) | (_, RangeFault::NotConstant) => RangeFault::NotConstant,
        (RangeFault::BadSelect, _) | (_, RangeFault::BadSelect) => RangeFault::BadSelect,
        (RangeFault::BadRange, _) | (_, RangeFault::BadRange) => RangeFault::BadRange,
        _ => RangeFault::WidthPast128,
    }
}

/// Both values, or what hinders one of them, and of two faults the one that comes first.
pub fn both<A: Drop, B: Drop>(
    one: Result<A, RangeFault>,
    other: Result<B, RangeFault>,
) -> Result<(A, B), RangeFault>
    ensures { result ≡ spec.both one other }
{
    match one {
        Ok(one) => match other {
            Ok(other) => Ok((one, other)),
            Err(fault) => Err(fault),
        },
        Err(fault) => match other {
            Ok(_) => Err(fault),
            Err(second) => Err(earlier(fault, second)),
        },
    }
}

/// A fault of an expression as one of a range.
pub fn of_constant(fault: ConstantFault) -> RangeFault
    ensures { result ≡ spec.of_constant fault }
{
    match fault {
        ConstantFault::NotConstant => RangeFault::NotConstant,
        ConstantFault::BadSelect => RangeFault::BadSelect,
        ConstantFault::WidthPast128 => RangeFault::WidthPast128,
        ConstantFault::NoMemory => RangeFault::NoMemory,
    }
}
