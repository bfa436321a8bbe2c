//! The piece at the front of a text.

ghost use Rattle.std.specs.Prelude.{◌≡◌, ◌+◌, ◌<◌, ◌≤◌, ◌^◌, true, length, drop, slice_index, Ok};
ghost use Rattle.vlog_lexer.specs.Numbers as numbers;
ghost use Rattle.vlog_words.specs.Symbols as symbols;
ghost use Rattle.vlog_lexer.specs.declared.piece.Meaning.TheVariants.{Blank};
ghost use Rattle.vlog_lexer.specs.Pieces as spec;
ghost use Rattle.vlog_lexer.specs.Pieces.{Gives};
ghost use Rattle.vlog_lexer.specs.Bytes as bytes;
ghost use Rattle.vlog_words.specs.Names as names;
ghost use Rattle.vlog_lexer.specs.Inside.{IsInside};

use crate::bytes::{begins_number, is_white, line_len};
use crate::comment::{block_len, comment_meaning};
use crate::number::number_of;
use crate::piece::{Flaw, Meaning, Piece, Stop, refused, token};
use crate::quoted::string_piece;
use cov_types::ByteText;
use std::alloc::Global;
use vlog_tokens::TokenKind;
use vlog_words::{begins_name, begins_with_name, name_len, symbol_of, word_of};

/// The identifier at the front of a text.
#[tactic(auto, unfolding(crate::specs::Pieces::name_piece))]
fn name_piece(alloc: Global, text: &[u8]) -> Result<Piece, Stop>
    requires whole { 0 < length text.now }
    requires first { names.begins_name (slice_index text.now 0) ≡ true }
    ensures value { Gives (spec.name_piece text.now) result }
    ensures within { IsInside (length text.now) result }
{
    let len = name_len(text);
    let bytes = &text[..len];
    if bytes.starts_with(b"cov$") {
        return Err(refused(Flaw::ReservedName, 0));
    }
    if let Some(word) = word_of(bytes) {
        return Ok(token(word, len));
    }
    match ByteText::from_slice(alloc, bytes) {
        Err(_) => Err(Stop::NoMemory),
        Ok(name) => Ok(token(TokenKind::Name(name), len)),
    }
}

/// The system name at the front of a text, which begins with its `$`.
#[tactic(auto, unfolding(crate::specs::Pieces::system_piece))]
fn system_piece(alloc: Global, text: &[u8]) -> Result<Piece, Stop>
    requires whole { 0 < length text.now }
    requires first { slice_index text.now 0 ≡ 36 }
    ensures value { Gives (spec.system_piece (drop 1 text.now)) result }
    ensures within { IsInside (length text.now) result }
{
    let rest = &text[1..];
    if !begins_with_name(rest) {
        return Err(refused(Flaw::BadByte, 0));
    }
    let len = 1 + name_len(rest);
    match ByteText::from_slice(alloc, &text[..len]) {
        Err(_) => Err(Stop::NoMemory),
        Ok(name) => Ok(token(TokenKind::System(name), len)),
    }
}

/// The number at the front of a text.
fn number_piece(text: &[u8]) -> Result<Piece, Stop>
    requires short { length text.now < 2 ^ 32 }
    requires whole { 0 < length text.now }
    requires first { bytes.begins_number (slice_index text.now 0) ≡ true }
    ensures value { Gives (spec.number_front (numbers.number_of text.now)) result }
    ensures within { IsInside (length text.now) result }
{
    match number_of(text) {
        Err(flaw) => Err(refused(flaw, 0)),
        Ok((numeral, len)) => Ok(token(
            TokenKind::Number {
                width: numeral.width,
                signed: numeral.signed,
                value: numeral.value,
                free: numeral.free,
            },
            len,
        )),
    }
}

/// The rest of the line of a directive that is skipped, behind its backquote.
#[tactic(auto, unfolding(crate::specs::Pieces::directive_piece))]
fn directive_piece(text: &[u8]) -> Result<Piece, Stop>
    requires { length text.now < 2 ^ 32 }
    ensures value { Gives (spec.directive_piece text.now) result }
    ensures within { IsInside (1 + length text.now) result }
{
    let name = &text[..name_len(text)];
    if name == b"timescale".as_slice() || name == b"default_nettype".as_slice() {
        Ok(blank(1 + line_len(text)))
    } else {
        Err(refused(Flaw::Directive, 0))
    }
}

/// The comment up to the end of its line, behind its `//`.
#[tactic(auto, unfolding(crate::specs::Pieces::line_comment_piece))]
fn line_comment_piece(text: &[u8]) -> Piece
    requires { length text.now < 2 ^ 32 }
    ensures value { spec.line_comment_piece text.now ≡ Ok result }
    ensures within { result.len ≤ 2 + length text.now }
    ensures some { 0 < result.len }
{
    let len = line_len(text);
    Piece {
        what: comment_meaning(&text[..len]),
        len: 2 + len,
    }
}

/// The comment up to the next `*/`, behind its `/*`.
#[tactic(auto, unfolding(crate::specs::Pieces::block_comment_piece))]
fn block_comment_piece(text: &[u8]) -> Result<Piece, Stop>
    requires { length text.now < 2 ^ 32 }
    ensures value { Gives (spec.block_comment_piece text.now) result }
    ensures within { IsInside (2 + length text.now) result }
{
    match block_len(text) {
        None => Err(refused(Flaw::OpenComment, 0)),
        Some(len) => Ok(Piece {
            what: comment_meaning(&text[..len]),
            len: len + 4,
        }),
    }
}

/// The operator or mark at the front of a text.
fn symbol_piece(text: &[u8]) -> Result<Piece, Stop>
    requires { 0 < length text.now }
    ensures value { Gives (spec.symbol_front (symbols.symbol_of text.now)) result }
    ensures within { IsInside (length text.now) result }
{
    match symbol_of(text) {
        None => Err(refused(Flaw::BadByte, 0)),
        Some((kind, len)) => Ok(token(kind, len)),
    }
}

/// White space or a skipped line of so many bytes.
fn blank(len: usize) -> Piece
    ensures { result ≡ record { what = Blank; len = len } }
{
    Piece {
        what: Meaning::Blank,
        len,
    }
}

/// The piece at the front of a text.
pub(crate) fn front_of(alloc: Global, text: &[u8]) -> Result<Piece, Stop>
    requires whole { 0 < length text.now }
    requires short { length text.now < 2 ^ 32 }
    ensures value { Gives (spec.front_of text.now) result }
    ensures within { IsInside (length text.now) result }
{
    let first = text[0];
    let rest = &text[1..];
    if is_white(first) {
        Ok(blank(1))
    } else if begins_name(first) {
        name_piece(alloc, text)
    } else if begins_number(first) {
        number_piece(text)
    } else if first == b'"' {
        string_piece(alloc, rest)
    } else if first == b'$' {
        system_piece(alloc, text)
    } else if first == b'`' {
        directive_piece(rest)
    } else if text.starts_with(b"//") {
        Ok(line_comment_piece(&text[2..]))
    } else if text.starts_with(b"/*") {
        block_comment_piece(&text[2..])
    } else {
        symbol_piece(text)
    }
}
