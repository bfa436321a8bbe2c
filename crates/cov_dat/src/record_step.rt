/// What comes next of a data file.
#[derive(Clone, Copy, Debug, PartialEq, Eq)]
pub enum RecordStep {
    /// A record, whose key and count the reader tells.
    Record,
    /// The end of the file's bytes.
    End,
}
