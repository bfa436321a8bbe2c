/// How reports are made.
#[derive(Clone, Copy, Debug, PartialEq, Eq)]
pub struct ReportOptions {
    /// The least count of a line that isn't low.
    pub min: u64,
    /// Whether all files are annotated, and not only those with a low line.
    pub all: bool,
    /// Whether the points of a line follow it.
    pub points: bool,
    /// Whether files are annotated at all.
    pub annotate: bool,
}
