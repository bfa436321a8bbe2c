use crate::fault::DataFault;
use cov_port::{ByteText, Rows};

/// A key with one of its counts.
#[derive(Debug, Drop)]
pub struct Record {
    pub key: ByteText,
    pub count: u64,
}

/// The records of a data file before the first line that is none, and why that line is refused.
///
/// `fault` is absent exactly where the text was read to its end.
#[derive(Debug, Drop)]
pub struct RecordList {
    pub records: Rows<Record>,
    pub fault: Option<DataFault>,
}
