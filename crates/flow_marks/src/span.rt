/// Bits of one variable: those at some places of some words.
#[derive(Clone, Copy, Debug, PartialEq, Eq)]
pub struct Span {
    pub var: u32,
    /// The first word.
    pub word: u32,
    /// The word past the last.
    pub word_end: u32,
    /// The lowest place.
    pub place: u8,
    /// The place past the highest.
    pub place_end: u8,
}
