//! Strings.

ghost use Rattle.std.specs.Prelude.{◌≡◌, ◌+◌, ◌<◌, ◌≤◌, ◌^◌, false, length, ℕ, Err, IfSome};
ghost use Rattle.vlog_lexer.specs.declared.quoted.TextStop.TheVariants.{At};
ghost use Rattle.vlog_lexer.specs.Pieces as pieces;
ghost use Rattle.vlog_lexer.specs.Pieces.{Gives};
ghost use Rattle.vlog_lexer.specs.Texts as spec;
ghost use Rattle.vlog_lexer.specs.Inside.{IsInside};
ghost use Rattle.vlog_lexer.specs.TextReading.{IsRead};

use crate::piece::{Flaw, Piece, Stop, refused, token};
use cov_types::ByteText;
use std::alloc::Global;
use vlog_tokens::TokenKind;

#[tactic(auto, unfolding(crate::specs::Texts::closes))]
fn closes(taken: bool, byte: u8) -> bool
    ensures { result ≡ spec.closes taken byte }
{
    byte == b'"' && !taken
}

#[tactic(auto, unfolding(crate::specs::Texts::takes_next))]
fn takes_next(taken: bool, byte: u8) -> bool
    ensures { result ≡ spec.takes_next taken byte }
{
    byte == b'\\' && !taken
}

/// How many bytes stand before the quote that closes a string on its line, where one does.
fn quoted_len(text: &[u8]) -> Option<usize>
    ensures value { result ≡ spec.quoted_length false text.now }
    ensures within { IfSome result (λ n. n < length text.now) }
{
    let mut taken = false;
    for at in 0..text.len() {
        let byte = text[at];
        if byte == b'\n' {
            return None;
        }
        if closes(taken, byte) {
            return Some(at);
        }
        taken = takes_next(taken, byte);
    }
    None
}

#[tactic(auto, unfolding(crate::specs::Texts::is_plain))]
fn is_plain(byte: u8) -> bool
    ensures { result ≡ spec.is_plain byte }
{
    32 <= byte && byte <= 126 && byte != b'\\'
}

#[tactic(auto, unfolding(crate::specs::Texts::escaped))]
fn escaped(byte: u8) -> Option<u8>
    ensures { result ≡ spec.escaped byte }
{
    if byte == b'n' {
        Some(b'\n')
    } else if byte == b't' {
        Some(b'\t')
    } else if byte == b'\\' {
        Some(b'\\')
    } else if byte == b'"' {
        Some(b'"')
    } else {
        None
    }
}

/// The byte that the front of a string's text stands for, and how many bytes stand for it.
fn first_byte(text: &[u8]) -> Option<(u8, usize)>
    ensures value { result ≡ spec.first_byte text.now }
    ensures within { IfSome result (λ found. (0 < found.1) × (found.1 ≤ length text.now)) }
{
    match text {
        [] => None,
        [byte] => plain_byte(*byte),
        [byte, next, ..] => {
            if *byte == b'\\' {
                match escaped(*next) {
                    None => None,
                    Some(meant) => Some((meant, 2)),
                }
            } else {
                plain_byte(*byte)
            }
        }
    }
}

#[tactic(auto, unfolding(crate::specs::Texts::plain_byte))]
fn plain_byte(byte: u8) -> Option<(u8, usize)>
    ensures value { result ≡ spec.plain_byte byte }
    ensures one { IfSome result (λ found. found.1 ≡ 1) }
{
    if is_plain(byte) {
        Some((byte, 1))
    } else {
        None
    }
}

/// Why the bytes of a string were not read: a wrong byte behind so many, or want of memory.
enum TextStop {
    At(usize),
    NoMemory,
}

/// The bytes that the text between the quotes stands for.
fn bytes_of(alloc: Global, text: &[u8]) -> Result<Vec<u8>, TextStop>
    ensures value { IsRead (spec.bytes_of text.now) result }
    ensures within { (n : ℕ) → result ≡ Err (At n) → n < length text.now }
{
    let mut bytes = Vec::new(alloc);
    let mut at = 0;
    while at < text.len() {
        match first_byte(&text[at..]) {
            None => return Err(TextStop::At(at)),
            Some((byte, len)) => match bytes.push(byte) {
                Err(_) => return Err(TextStop::NoMemory),
                Ok(()) => at += len,
            },
        }
    }
    Ok(bytes)
}

/// The string at the front of a text, which is what follows its first quote.
#[tactic(auto, unfolding(crate::specs::Pieces::string_piece))]
pub(crate) fn string_piece(alloc: Global, text: &[u8]) -> Result<Piece, Stop>
    requires { length text.now < 2 ^ 32 }
    ensures value { Gives (pieces.string_piece text.now) result }
    ensures within { IsInside (1 + length text.now) result }
{
    let Some(len) = quoted_len(text) else {
        return Err(refused(Flaw::OpenString, 0));
    };
    match bytes_of(alloc, &text[..len]) {
        Err(TextStop::NoMemory) => Err(Stop::NoMemory),
        Err(TextStop::At(offset)) => Err(refused(Flaw::BadByte, 1 + offset)),
        Ok(bytes) => Ok(token(TokenKind::Text(ByteText::from_vec(bytes)), len + 2)),
    }
}
