use cov_types::LimitName;
use thiserror::Error;

/// Why a stimulus is refused. A line's fault has the number of its line, from 1.
#[derive(Clone, Copy, Debug, PartialEq, Eq, Error)]
pub enum StimFault {
    /// The text has no header line.
    #[error("BadHeader")]
    BadHeader(u64),
    /// A field of the header names no input of the design.
    #[error("UnknownInput")]
    UnknownInput(u64),
    /// The header names not each input of the design.
    #[error("MissingInput")]
    MissingInput(u64),
    /// A field of the header names an input that an earlier field names.
    #[error("RepeatedInput")]
    RepeatedInput(u64),
    /// A value is no hexadecimal number of 1 to 32 digits.
    #[error("BadValue")]
    BadValue(u64),
    /// A value has more bits than its input.
    #[error("TooWide")]
    TooWide(u64),
    /// A row has not as many values as the header has names.
    #[error("WrongCount")]
    WrongCount(u64),
    /// The last field of a row begins with `x`, and is no number of cycles.
    #[error("BadRepeat")]
    BadRepeat(u64),
    /// With this row the run passes 2^32 cycles.
    #[error("TooManyCycles")]
    TooManyCycles(u64),
    /// The line has more than 65,535 bytes without its line feed.
    #[error("LineTooLong")]
    LineTooLong(u64),
    /// A read failed.
    #[error("Failed")]
    Failed,
    /// The text is over a limit.
    #[error("Limit")]
    Limit(LimitName),
    /// Memory was wanted and not given.
    #[error("NoMemory")]
    NoMemory,
}
