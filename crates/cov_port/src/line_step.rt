use thiserror::Error;

/// What comes next of an open file.
#[derive(Clone, Copy, Debug, PartialEq, Eq)]
pub enum LineStep {
    /// A line that a line feed ends.
    Line,
    /// The last line, of at least one byte, which no line feed ends.
    LastLine,
    /// The end of the file's bytes.
    End,
}

/// Why no line comes.
#[derive(Clone, Copy, Debug, PartialEq, Eq, Error)]
pub enum CutFault {
    /// A read failed.
    #[error("Failed")]
    Failed,
    /// 65,536 bytes hold no line feed.
    #[error("TooLong")]
    TooLong,
}
