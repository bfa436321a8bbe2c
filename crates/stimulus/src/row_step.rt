/// What comes next of a stimulus.
#[derive(Clone, Copy, Debug, PartialEq, Eq)]
pub enum RowStep {
    /// A row.
    Row,
    /// The end of the file's bytes.
    End,
}
