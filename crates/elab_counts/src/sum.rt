ghost use Rattle.std.specs.Prelude.{◌≡◌, ◌+◌, IfOk};

use cov_types::NoMemory;

/// A sum; want of memory where it passes what numbers of items can be.
pub(crate) fn sum(one: u32, other: u32) -> Result<u32, NoMemory>
    ensures { IfOk result (λ n. n ≡ one + other) }
{
    match one.checked_add(other) {
        Some(sum) => Ok(sum),
        None => Err(NoMemory),
    }
}
