ghost use Rattle.std.specs.Prelude.{◌≡◌, ◌&&◌, Bool};
ghost use Rattle.flat_fixed.specs.Checks.{Checks};

use cov_types::NoMemory;

/// Whether something holds, or want of memory.
pub type Fixed = Result<bool, NoMemory>;

/// Whether two hold.
pub(crate) fn and(one: bool, other: bool) -> bool
    ensures { result ≡ (one && other) }
{
    one && other
}

/// The same of what may have wanted memory.
pub(crate) fn both(one: Fixed, other: Fixed) -> Fixed
    ensures { (p q : Bool) → Checks p one → Checks q other → Checks (p && q) result }
{
    match one {
        Ok(one) => match other {
            Ok(other) => Ok(and(one, other)),
            Err(fault) => Err(fault),
        },
        Err(fault) => Err(fault),
    }
}
