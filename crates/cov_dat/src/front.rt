/// What the signs of a pattern before its first star come to.
#[derive(Clone, Copy)]
pub(crate) enum Front<'a> {
    /// They fit, and these are left of the pattern, behind the star, and of the text.
    Star(&'a [u8], &'a [u8]),
    /// There is no star, and they fit the whole text.
    Whole,
    /// They don't fit.
    Misfit,
}
