/// What one line of a stimulus comes to.
#[derive(Clone, Copy)]
pub(crate) enum LineStory {
    /// It is skipped.
    Skipped,
    /// It has fields.
    Spoken,
    /// There is no further line.
    End,
}
