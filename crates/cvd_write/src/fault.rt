ghost use Rattle.std.specs.Prelude.{◌≡◌};
ghost use Rattle.cvd_write.specs.declared.fault.WriteFault.TheVariants.{NoMemory as no_memory};

use cov_types::LimitName;
use std::alloc::{AllocError, AllocFailed};
use thiserror::Error;

/// Why a design isn't written.
#[derive(Clone, Copy, Debug, PartialEq, Eq, Error)]
pub enum WriteFault {
    /// Memory was wanted and not given.
    #[error("NoMemory")]
    NoMemory,
    /// The text would be past the limit on its bytes.
    #[error("Limit")]
    Limit(LimitName),
}

impl From<AllocError> for WriteFault {
    ghost from_gives = { λ _ fault. fault ≡ no_memory };

    fn from(_error: AllocError) -> WriteFault {
        WriteFault::NoMemory
    }
}
