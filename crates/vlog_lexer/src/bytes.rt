//! Classes of bytes, and how many bytes of a class a text begins with.

ghost use Rattle.std.specs.Prelude.{◌≡◌, ◌≤◌, length};
ghost use Rattle.std.specs.List.{prefix_len};
ghost use Rattle.vlog_lexer.specs.Bytes as spec;
ghost use Rattle.vlog_lexer.specs.Pieces as pieces;

#[tactic(auto, unfolding(crate::specs::Bytes::is_white))]
pub(crate) fn is_white(byte: u8) -> bool
    ensures { result ≡ spec.is_white byte }
{
    byte.is_ascii_whitespace()
}

#[tactic(auto, unfolding(crate::specs::Bytes::is_gap))]
pub(crate) fn is_gap(byte: u8) -> bool
    ensures { result ≡ spec.is_gap byte }
{
    byte == b' ' || byte == b'\t'
}

#[tactic(auto, unfolding(crate::specs::Bytes::continues_decimal))]
fn continues_decimal(byte: u8) -> bool
    ensures { result ≡ spec.continues_decimal byte }
{
    byte.is_ascii_digit() || byte == b'_'
}

#[tactic(auto, unfolding(crate::specs::Bytes::begins_number))]
pub(crate) fn begins_number(byte: u8) -> bool
    ensures { result ≡ spec.begins_number byte }
{
    byte.is_ascii_digit() || byte == b'\''
}

#[tactic(auto, unfolding(crate::specs::Bytes::is_free))]
pub(crate) fn is_free(byte: u8) -> bool
    ensures { result ≡ spec.is_free byte }
{
    byte == b'z' || byte == b'Z' || byte == b'?'
}

#[tactic(auto, unfolding(crate::specs::Bytes::continues_digits))]
fn continues_digits(byte: u8) -> bool
    ensures { result ≡ spec.continues_digits byte }
{
    byte.is_ascii_hexdigit() || byte == b'_' || is_free(byte) || byte == b'x' || byte == b'X'
}

#[tactic(auto, unfolding(crate::specs::Pieces::is_no_line_feed, crate::specs::Bytes::is_line_feed))]
fn is_no_line_feed(byte: u8) -> bool
    ensures { result ≡ pieces.is_no_line_feed byte }
{
    byte != b'\n'
}

/// How many bytes of a plain decimal the text begins with.
pub(crate) fn decimal_len(text: &[u8]) -> usize
    ensures value { result ≡ prefix_len spec.continues_decimal text.now }
    ensures within { result ≤ length text.now }
{
    text.iter()
        .take_while(|byte| continues_decimal(**byte))
        .count()
}

/// How many bytes the digits behind a base have.
pub(crate) fn digits_len(text: &[u8]) -> usize
    ensures value { result ≡ prefix_len spec.continues_digits text.now }
    ensures within { result ≤ length text.now }
{
    text.iter()
        .take_while(|byte| continues_digits(**byte))
        .count()
}

/// How many bytes stand before the end of the line.
#[tactic(auto, unfolding(crate::specs::Pieces::line_length))]
pub(crate) fn line_len(text: &[u8]) -> usize
    ensures value { result ≡ pieces.line_length text.now }
    ensures within { result ≤ length text.now }
{
    text.iter()
        .take_while(|byte| is_no_line_feed(**byte))
        .count()
}
