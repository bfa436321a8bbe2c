ghost use Rattle.std.specs.Prelude.{◌≡◌};
ghost use Rattle.cvd_cursor.specs.declared.fault.ReadFault.TheVariants.{NoMemory as no_memory};

use cov_types::NoMemory;
use std::alloc::AllocError;
use thiserror::Error;

/// Why the pieces of a text aren't a value's. The cursor then stands at the first wrong piece.
#[derive(Clone, Copy, Debug, PartialEq, Eq, Error)]
pub enum ReadFault {
    /// Memory was wanted and not given.
    #[error("NoMemory")]
    NoMemory,
    /// Another word, or the line's end, where a number must stand.
    #[error("BadNumber")]
    BadNumber,
    /// Another word, or the line's end, where something else must stand; or a further word.
    #[error("BadToken")]
    BadToken,
    /// The line's tokens are right, and one of its conditions breaks.
    #[error("BadShape")]
    BadShape,
    /// More must come.
    #[error("Truncated")]
    Truncated,
}

impl From<AllocError> for ReadFault {
    ghost from_gives = { λ _ fault. fault ≡ no_memory };

    fn from(_error: AllocError) -> ReadFault {
        ReadFault::NoMemory
    }
}

impl From<NoMemory> for ReadFault {
    ghost from_gives = { λ _ fault. fault ≡ no_memory };

    fn from(_error: NoMemory) -> ReadFault {
        ReadFault::NoMemory
    }
}
