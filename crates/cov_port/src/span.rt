/// Where in a log of bytes a file stands: its name from `name` on, its text from `text` up to `end`.
#[derive(Clone, Copy, Debug)]
pub(crate) struct Span {
    pub(crate) name: usize,
    pub(crate) text: usize,
    pub(crate) end: usize,
}
