ghost use Rattle.std.specs.Prelude.{◌≡◌};
ghost use Rattle.vlog_reading.specs.declared.fault.ReadFault.TheVariants.{NoMemory as wants_memory};

use cov_types::NoMemory;
use std::alloc::{AllocError, AllocFailed};

/// Why reading gave nothing.
#[derive(Clone, Copy, Debug, PartialEq, Eq)]
pub enum ReadFault {
    /// There was no memory for what was read.
    NoMemory,
    /// What was asked for doesn't stand there.
    Syntax,
}

impl From<AllocError> for ReadFault {
    ghost from_gives = { λ _ e. e ≡ wants_memory };

    fn from(_e: AllocError) -> ReadFault {
        ReadFault::NoMemory
    }
}

impl<T: Drop> From<AllocFailed<T>> for ReadFault {
    ghost from_gives = { λ _ e. e ≡ wants_memory };

    fn from(_e: AllocFailed<T>) -> ReadFault {
        ReadFault::NoMemory
    }
}

impl From<NoMemory> for ReadFault {
    ghost from_gives = { λ _ e. e ≡ wants_memory };

    fn from(_e: NoMemory) -> ReadFault {
        ReadFault::NoMemory
    }
}
