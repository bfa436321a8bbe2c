ghost use Rattle.std.specs.Prelude.{◌≡◌};
ghost use Rattle.cov_dat.specs.declared.merge_fault.MergeFault.TheVariants.{NoMemory as no_memory};

use cov_port::LimitName;
use std::alloc::{AllocError, AllocFailed};
use thiserror::Error;

/// Why a count isn't added.
#[derive(Clone, Copy, Debug, PartialEq, Eq, Error)]
pub enum MergeFault {
    /// The key would be one too many, or the bytes of all keys too many.
    #[error("Limit")]
    Limit(LimitName),
    /// Memory was wanted and not given.
    #[error("NoMemory")]
    NoMemory,
}

impl From<AllocError> for MergeFault {
    ghost from_gives = { λ _ fault. fault ≡ no_memory };

    fn from(_error: AllocError) -> MergeFault {
        MergeFault::NoMemory
    }
}

impl<T: Drop> From<AllocFailed<T>> for MergeFault {
    ghost from_gives = { λ _ fault. fault ≡ no_memory };

    fn from(_error: AllocFailed<T>) -> MergeFault {
        MergeFault::NoMemory
    }
}

impl From<cov_port::NoMemory> for MergeFault {
    ghost from_gives = { λ _ fault. fault ≡ no_memory };

    fn from(_error: cov_port::NoMemory) -> MergeFault {
        MergeFault::NoMemory
    }
}
