//! Comments, and the coverage comments among them.

ghost use Rattle.std.specs.Prelude.{◌≡◌, ◌+◌, ◌≤◌, length, IfSome};
ghost use Rattle.std.specs.Str.{bytes_eq};
ghost use Rattle.vlog_lexer.specs.Comments as spec;
ghost use Rattle.vlog_lexer.specs.Pieces as pieces;

use crate::bytes::is_gap;
use crate::piece::Meaning;
use cov_types::PragmaKind;

/// How many bytes stand before the next `*/`, where there is one.
pub(crate) fn block_len(text: &[u8]) -> Option<usize>
    ensures value { result ≡ spec.block_length text.now }
    ensures within { IfSome result (λ n. n + 2 ≤ length text.now) }
{
    for at in 0..text.len() {
        if text[at..].starts_with(b"*/") {
            return Some(at);
        }
    }
    None
}

#[tactic(auto, unfolding(crate::specs::Comments::begins_with_gap))]
fn begins_with_gap(text: &[u8]) -> bool
    ensures { result ≡ spec.begins_with_gap text.now }
{
    match text {
        [] => false,
        [first, ..] => is_gap(*first),
    }
}

#[tactic(auto, unfolding(crate::specs::Comments::begins_with_gaps))]
fn begins_with_gaps(text: &[u8]) -> bool
    ensures { result ≡ spec.begins_with_gaps text.now }
{
    match text {
        [] => false,
        [first, rest @ ..] => is_gap(*first) && begins_with_gap(rest),
    }
}

#[tactic(auto, unfolding(crate::specs::Comments::as_space))]
fn as_space(byte: u8) -> u8
    ensures { result ≡ spec.as_space byte }
{
    if is_gap(byte) { b' ' } else { byte }
}

/// Whether the text is these words, where each run of spaces and tabs counts as one space.
fn says(text: &[u8], words: &[u8]) -> bool
    ensures { result ≡ bytes_eq (spec.squeezed text.now) words.now }
{
    let mut said = 0;
    for at in 0..text.len() {
        if !begins_with_gaps(&text[at..]) {
            if said == words.len() {
                return false;
            }
            let byte = as_space(text[at]);
            if byte != words[said] {
                return false;
            }
            said += 1;
        }
    }
    said == words.len()
}

#[tactic(auto, unfolding(crate::specs::Comments::trimmed))]
fn trimmed(text: &[u8]) -> &[u8]
    ensures { result.now ≡ spec.trimmed text.now }
{
    text.trim_ascii()
}

/// The coverage comment that a comment with this body is, if it is one.
#[tactic(auto, unfolding(crate::specs::Comments::pragma_of))]
fn pragma_of(body: &[u8]) -> Option<PragmaKind>
    ensures { result ≡ spec.pragma_of body.now }
{
    let body = trimmed(body);
    if says(body, b"verilator coverage_off") {
        Some(PragmaKind::Off)
    } else if says(body, b"verilator coverage_on") {
        Some(PragmaKind::On)
    } else if says(body, b"verilator coverage_block_off") {
        Some(PragmaKind::BlockOff)
    } else {
        None
    }
}

/// What a comment with this body means.
pub(crate) fn comment_meaning(body: &[u8]) -> Meaning
    ensures { result ≡ pieces.comment_meaning (spec.pragma_of body.now) }
{
    match pragma_of(body) {
        None => Meaning::Blank,
        Some(kind) => Meaning::Comment(kind),
    }
}
