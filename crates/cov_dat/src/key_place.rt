/// A record's count, and where in its line its key ends. It begins at the fourth byte.
#[derive(Clone, Copy)]
pub(crate) struct KeyPlace {
    pub(crate) end: usize,
    pub(crate) count: u64,
}

/// What one line of a data file comes to.
#[derive(Clone, Copy)]
pub(crate) enum LineStory {
    /// It is skipped.
    Nothing,
    /// It is a record.
    Record,
    /// There is no further line.
    End,
}
