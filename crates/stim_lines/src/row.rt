use crate::fault::StimFault;
use cov_types::Rows;

/// What the inputs of a design are for some cycles: a value each, in the order of the design's inputs, and for how many cycles.
#[derive(Debug, Drop)]
pub struct Row {
    pub values: Rows<u128>,
    pub repeat: u64,
}

/// The rows of a stimulus before its first bad line, and that line's fault.
///
/// `fault` is absent exactly where the text was read to its end.
#[derive(Debug, Drop)]
pub struct StimText {
    pub rows: Rows<Row>,
    pub fault: Option<StimFault>,
}
