use cov_port::LimitName;
use thiserror::Error;

/// Why a data file is refused. A line's fault has the number of its line, from 1.
#[derive(Clone, Copy, Debug, PartialEq, Eq, Error)]
pub enum DataFault {
    /// The first line isn't the header, or no line feed ends it.
    #[error("BadHeader")]
    BadHeader(u64),
    /// A later line is neither skipped nor a record, or no line feed ends it.
    #[error("BadRecord")]
    BadRecord(u64),
    /// No space and count of at most 2^64 - 1 follow the key of a record.
    #[error("BadCount")]
    BadCount(u64),
    /// The line has more than 65,535 bytes without its line feed.
    #[error("LineTooLong")]
    LineTooLong(u64),
    /// A read failed.
    #[error("Failed")]
    Failed,
    /// The file is over a limit.
    #[error("Limit")]
    Limit(LimitName),
}
