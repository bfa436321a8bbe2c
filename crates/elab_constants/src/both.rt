ghost use Rattle.std.specs.Prelude.{◌≡◌};
ghost use Rattle.elab_constants.specs.Faults as spec;

use crate::fault::{ConstantFault, earlier};

/// Both values, or the fault of one that has none, and of two faults the one that comes first.
pub(crate) fn both<A: Drop, B: Drop>(
    one: Result<A, ConstantFault>,
    other: Result<B, ConstantFault>,
) -> Result<(A, B), ConstantFault>
    ensures { result ≡ spec.both one other }
{
    match one {
        Ok(one) => match other {
            Ok(other) => Ok((one, other)),
            Err(fault) => Err(fault),
        },
        Err(fault) => match other {
            Ok(_) => Err(fault),
            Err(second) => Err(earlier(fault, second)),
        },
    }
}
