use cov_types::LimitName;
use flow_check::FlowFault;
use thiserror::Error;

/// Why a design isn't written, or a text isn't a design's that flows. Places are bytes of the text, counted from 0.
#[derive(Debug, Drop, Error)]
pub enum CvdFault {
    /// Memory was wanted and not given.
    #[error("NoMemory")]
    NoMemory,
    /// The text doesn't begin with `CVD `.
    #[error("NotCvd")]
    NotCvd(u64),
    /// The first line isn't `CVD 1`.
    #[error("Version")]
    Version(u64),
    /// A token is none of those that may stand there, or is missing or one too many. The place is where its line begins.
    #[error("BadToken")]
    BadToken(u64),
    /// Where a number must stand there is none. The place is where its line begins.
    #[error("BadNumber")]
    BadNumber(u64),
    /// A line has the right tokens and breaks a condition. The place is where it begins.
    #[error("BadShape")]
    BadShape(u64),
    /// The text ends too early, as where no line feed ends its last line. The place is its length.
    #[error("Truncated")]
    Truncated(u64),
    /// Bytes follow the last line. The place is the first of them.
    #[error("Trailing")]
    Trailing(u64),
    /// It is a design's text, but the design breaks a flow condition.
    #[error("Invalid")]
    Invalid(FlowFault),
    /// The text of the design would be past a limit.
    #[error("Limit")]
    Limit(LimitName),
}
