ghost use Rattle.std.specs.Prelude.{◌≡◌};
ghost use Rattle.report_text.specs.declared.report_fault.ReportFault.TheVariants.{NoMemory as no_memory};

use cov_types::{ByteText, LimitName};
use std::alloc::{AllocError, AllocFailed};
use thiserror::Error;

/// Why a report isn't made.
#[derive(Debug, Drop, Error)]
pub enum ReportFault {
    /// A key of this file lacks the number of its line, or has a line list that is none.
    #[error("BadKeyLine")]
    BadKeyLine { file: ByteText },
    /// An annotated file has a name under which nothing is read or written.
    #[error("BadFileName")]
    BadFileName { file: ByteText },
    /// An annotated file has the base name of one before it.
    #[error("SameBaseName")]
    SameBaseName { file: ByteText },
    /// A source ends before a line that has items.
    #[error("ShortSource")]
    ShortSource { lines: u32 },
    /// The lines of all line lists are too many.
    #[error("Limit")]
    Limit(LimitName),
    /// Memory was wanted and not given.
    #[error("NoMemory")]
    NoMemory,
}

impl From<AllocError> for ReportFault {
    ghost from_gives = { λ _ fault. fault ≡ no_memory };

    fn from(_error: AllocError) -> ReportFault {
        ReportFault::NoMemory
    }
}

impl<T: Drop> From<AllocFailed<T>> for ReportFault {
    ghost from_gives = { λ _ fault. fault ≡ no_memory };

    fn from(_error: AllocFailed<T>) -> ReportFault {
        ReportFault::NoMemory
    }
}

impl From<cov_types::NoMemory> for ReportFault {
    ghost from_gives = { λ _ fault. fault ≡ no_memory };

    fn from(_error: cov_types::NoMemory) -> ReportFault {
        ReportFault::NoMemory
    }
}
