ghost use Rattle.std.specs.Prelude.{◌≡◌, ◌≤◌, ◌<◌, ◌∷◌, length};
ghost use Rattle.cov_port.specs.Lines.{bytes_of, lines_of};

use memchr::memchr;

/// The greatest number of bytes of a line without its line feed.
const MOST_LINE: usize = 65_535;

/// A line of a text and what stands behind it.
#[derive(Clone, Copy)]
pub struct LineCut<'a> {
    pub line: &'a [u8],
    /// Whether a line feed ends the line.
    pub ended: bool,
    pub rest: &'a [u8],
}

/// Cuts off the first line.
pub fn cut_line(text: &[u8]) -> LineCut<'_>
    requires { 0 < length text.now }
    ensures lines { lines_of text.now ≡ (result.line.now, result.ended) ∷ lines_of result.rest.now }
    ensures bytes { length result.rest.now < length text.now }
{
    match memchr(b'\n', text) {
        Some(at) => LineCut {
            line: &text[..at],
            ended: true,
            rest: &text[at + 1..],
        },
        None => LineCut {
            line: text,
            ended: false,
            rest: &text[text.len()..],
        },
    }
}

/// What a line counts towards the size of its file.
pub fn line_bytes(line: &[u8], ended: bool) -> u64
    ensures value { result ≡ bytes_of (line.now, ended) }
    ensures most { result ≤ 65536 }
{
    if line.len() > MOST_LINE {
        return 65_536;
    }
    line.len() as u64 + u64::from(ended)
}
