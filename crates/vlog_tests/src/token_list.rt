//! Tokens written down.

use anyhow::anyhow;
use std::alloc::Global;
use std::fmt::Write;
use vlog_lexer::{LexFault, PragmaKind, Token, TokenKind, TokenList, tokens};

/// The most bytes of a text whose tokens are read.
const MOST_BYTES: usize = 5_000_000;

/// The tokens of a text of the file with this number, or their fault.
pub(crate) fn read_tokens(
    alloc: Global,
    text: &[u8],
    file: u32,
) -> anyhow::Result<Result<TokenList, LexFault>> {
    if text.len() > MOST_BYTES {
        return Err(anyhow!("too long"));
    }
    Ok(tokens(alloc, text, file))
}

fn token(out: &mut String, token: &Token) -> anyhow::Result<()> {
    match &token.what {
        TokenKind::Name(name) => write!(out, "name {} ", name.len())?,
        TokenKind::System(name) => write!(out, "system {} ", name.len())?,
        TokenKind::Text(bytes) => write!(out, "text {:?} ", bytes.as_slice())?,
        TokenKind::Number {
            width,
            signed,
            value,
            free,
        } => write!(out, "{width} {signed} {value} {free} ")?,
        kind => write!(out, "{kind:?} ")?,
    }
    Ok(())
}

/// A fault and its place or limit.
pub(crate) fn fault_told(alloc: Global, fault: LexFault) -> anyhow::Result<String> {
    let place = match fault {
        LexFault::BadByte(place) => place,
        LexFault::BadNumber(place) => place,
        LexFault::NumberTooWide(place) => place,
        LexFault::OpenComment(place) => place,
        LexFault::OpenString(place) => place,
        LexFault::Directive(place) => place,
        LexFault::ReservedName(place) => place,
        LexFault::Limit(name) => return Ok(format!(in alloc; "{fault} {name:?}")?),
        LexFault::NoMemory => return Err(anyhow!("no memory")),
    };
    Ok(format!(in alloc; "{fault} {}:{}:{}", place.file, place.line, place.column)?)
}

/// The tokens of a text in file 7, with a space behind each, or its fault.
pub(crate) fn tokens_told(alloc: Global, text: &[u8]) -> anyhow::Result<String> {
    match read_tokens(alloc, text, 7)? {
        Err(fault) => fault_told(alloc, fault),
        Ok(list) => {
            let mut out = String::new(alloc);
            for one in list.tokens.as_slice() {
                token(&mut out, one)?;
            }
            Ok(out)
        }
    }
}

/// The fault of a text in file 7, or that it has none.
pub(crate) fn fault_alone(alloc: Global, text: &[u8]) -> anyhow::Result<String> {
    match read_tokens(alloc, text, 7)? {
        Err(fault) => fault_told(alloc, fault),
        Ok(_) => Ok(String::from_str(alloc, "no fault")?),
    }
}

fn pragma_word(kind: PragmaKind) -> &'static str {
    match kind {
        PragmaKind::Off => "off",
        PragmaKind::On => "on",
        PragmaKind::BlockOff => "block",
    }
}

/// The lines and columns of a text's tokens, and the lines, columns and kinds of its coverage comments.
pub(crate) fn places(alloc: Global, text: &[u8]) -> anyhow::Result<String> {
    let list = match read_tokens(alloc, text, 0)? {
        Err(fault) => return fault_told(alloc, fault),
        Ok(list) => list,
    };
    let mut out = String::new(alloc);
    for token in list.tokens.as_slice() {
        write!(out, "{}:{} ", token.place.line, token.place.column)?;
    }
    for pragma in list.pragmas.as_slice() {
        let word = pragma_word(pragma.what);
        write!(out, "{word} {}:{} ", pragma.place.line, pragma.place.column)?;
    }
    Ok(out)
}
