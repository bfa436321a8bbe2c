ghost use Rattle.std.specs.Prelude.{◌≡◌};
ghost use Rattle.lower_nodes.specs.Faults as spec;

use crate::fault::{ExpressionFault, earlier};
use std::alloc::AllocError;

/// Both values, or the fault of one that has none, and of two faults the one that comes first.
pub fn both<A: Drop, B: Drop>(
    one: Result<A, ExpressionFault>,
    other: Result<B, ExpressionFault>,
) -> Result<(A, B), ExpressionFault>
    ensures { result ≡ spec.both one other }
{
    match one {
        Ok(one) => match other {
            Ok(other) => Ok((one, other)),
            Err(fault) => Err(fault),
        },
        Err(fault) => match other {
            Ok(_) => Err(fault),
            Err(second) => Err(earlier(fault, second)),
        },
    }
}

/// What was made, or want of memory.
pub fn kept<A: Drop>(made: Result<A, AllocError>) -> Result<A, ExpressionFault>
    ensures { result ≡ spec.kept made }
{
    match made {
        Ok(made) => Ok(made),
        Err(_) => Err(ExpressionFault::NoMemory),
    }
}
