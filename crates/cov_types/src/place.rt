/// Where something stands in a source text.
///
/// `file` is the number of the file among those that were given, from 0. Lines and columns are
/// counted from 1, columns in bytes.
#[derive(Clone, Copy, Debug, PartialEq, Eq)]
pub struct Place {
    pub file: u32,
    pub line: u32,
    pub column: u32,
}
