ghost use Rattle.std.specs.Prelude.{◌≡◌};
ghost use Rattle.vlog_lexer.specs.declared.piece.Meaning.TheVariants.{Token};
ghost use Rattle.vlog_lexer.specs.declared.piece.Stop.TheVariants.{Refused};

use cov_types::PragmaKind;
use vlog_tokens::TokenKind;

/// What is wrong with a text, apart from where.
#[derive(Clone, Copy)]
pub(crate) enum Flaw {
    BadByte,
    BadNumber,
    NumberTooWide,
    OpenComment,
    OpenString,
    Directive,
    ReservedName,
}

/// A flaw, and how many bytes stand before the byte that it names.
#[derive(Clone, Copy)]
pub(crate) struct Refusal {
    pub flaw: Flaw,
    pub offset: usize,
}

/// What a piece of the text means.
#[derive(Drop)]
pub(crate) enum Meaning {
    Blank,
    Comment(PragmaKind),
    Token(TokenKind),
}

/// A piece of the text: what it means, and how many bytes it has.
#[derive(Drop)]
pub(crate) struct Piece {
    pub what: Meaning,
    pub len: usize,
}

/// Why no piece was read.
#[derive(Clone, Copy)]
pub(crate) enum Stop {
    Refused(Refusal),
    NoMemory,
}

/// A token of so many bytes.
pub(crate) fn token(what: TokenKind, len: usize) -> Piece
    ensures { result ≡ record { what = Token what; len = len } }
{
    Piece {
        what: Meaning::Token(what),
        len,
    }
}

/// This flaw, behind so many bytes.
pub(crate) fn refused(flaw: Flaw, offset: usize) -> Stop
    ensures { result ≡ Refused (record { flaw = flaw; offset = offset }) }
{
    Stop::Refused(Refusal { flaw, offset })
}
