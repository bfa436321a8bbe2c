ghost use Rattle.std.specs.Prelude.{◌≡◌};
ghost use Rattle.test_rank.specs.declared.fault.RankFault.TheVariants.{NoMemory as no_memory};

use cov_types::LimitName;
use std::alloc::{AllocError, AllocFailed};
use thiserror::Error;

/// Why a test isn't added.
#[derive(Clone, Copy, Debug, PartialEq, Eq, Error)]
pub enum RankFault {
    /// The pairs of a test and a point that it covers would be too many.
    #[error("Limit")]
    Limit(LimitName),
    /// Memory was wanted and not given.
    #[error("NoMemory")]
    NoMemory,
}

impl From<AllocError> for RankFault {
    ghost from_gives = { λ _ fault. fault ≡ no_memory };

    fn from(_error: AllocError) -> RankFault {
        RankFault::NoMemory
    }
}

impl<T: Drop> From<AllocFailed<T>> for RankFault {
    ghost from_gives = { λ _ fault. fault ≡ no_memory };

    fn from(_error: AllocFailed<T>) -> RankFault {
        RankFault::NoMemory
    }
}

impl From<cov_types::NoMemory> for RankFault {
    ghost from_gives = { λ _ fault. fault ≡ no_memory };

    fn from(_error: cov_types::NoMemory) -> RankFault {
        RankFault::NoMemory
    }
}
