use thiserror::Error;

/// Why a declared range has no size: the first of these that holds.
#[derive(Clone, Copy, Debug, PartialEq, Eq, Error)]
pub enum RangeFault {
    /// A name in a bound stands for no constant.
    #[error("NotConstant")]
    NotConstant,
    /// A bound has a select, or a replication whose count is below 1.
    #[error("BadSelect")]
    BadSelect,
    /// A vector range ascends, or a bound is negative or past `2^31 - 1`.
    #[error("BadRange")]
    BadRange,
    /// A vector has more than 128 bits, or a size inside a bound is past 128.
    #[error("WidthPast128")]
    WidthPast128,
    /// Memory was wanted and not given.
    #[error("NoMemory")]
    NoMemory,
}
