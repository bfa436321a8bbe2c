use cov_types::{LimitName, NoMemory};
use thiserror::Error;

/// Why there is no table of points.
#[derive(Clone, Copy, Debug, PartialEq, Eq, Error)]
pub enum PointFault {
    /// There are more than 1,048,576 points, or else a key has more than 65,000 bytes.
    #[error("Limit")]
    Limit(LimitName),
    /// Memory was wanted and not given.
    #[error("NoMemory")]
    NoMemory,
}

impl From<NoMemory> for PointFault {
    ghost use Rattle.std.specs.Prelude.{◌≡◌};
    ghost use Rattle.cov_points.specs.declared.fault.PointFault.TheVariants.{NoMemory as no_memory};

    ghost from_gives = { λ _ fault. fault ≡ no_memory };

    fn from(_fault: NoMemory) -> PointFault {
        PointFault::NoMemory
    }
}
