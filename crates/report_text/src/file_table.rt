/// A line of a source file that has items.
#[derive(Clone, Copy, Debug, PartialEq, Eq)]
pub struct CountedLine {
    pub line: u32,
    /// The least of its items' counts.
    pub count: u64,
}

/// A coverage point at its own line.
#[derive(Clone, Copy, Debug)]
pub struct LinePoint<'a> {
    pub line: u32,
    pub key: &'a [u8],
    pub count: u64,
}

/// What the reports say of a source file: its lines that have items, ascending, and its points, line by line and at a line in byte
/// order of their keys.
#[derive(Debug, Drop)]
pub struct FileTable<'a> {
    pub name: &'a [u8],
    pub lines: Vec<CountedLine>,
    pub points: Vec<LinePoint<'a>>,
}
