ghost use Rattle.std.specs.Prelude.{◌≡◌};
ghost use Rattle.vlog_lexer.specs.Faults.{fault_at};

use crate::piece::Flaw;
use cov_types::{LimitName, Place};
use thiserror::Error;

/// What keeps a text from being read as tokens: the first fault of the text, and its place.
///
/// The place is the first byte of the token or comment, and for `BadByte` the byte itself.
#[derive(Clone, Copy, Debug, PartialEq, Eq, Error)]
pub enum LexFault {
    /// A byte that begins nothing, or that may not stand in a string.
    #[error("BadByte")]
    BadByte(Place),
    /// A number that is not spelled as one.
    #[error("BadNumber")]
    BadNumber(Place),
    /// A number that has more bits than a number may have.
    #[error("NumberTooWide")]
    NumberTooWide(Place),
    /// A comment without its end.
    #[error("OpenComment")]
    OpenComment(Place),
    /// A string without its end on its line.
    #[error("OpenString")]
    OpenString(Place),
    /// A directive that is not skipped.
    #[error("Directive")]
    Directive(Place),
    /// An identifier that begins with `cov$`.
    #[error("ReservedName")]
    ReservedName(Place),
    /// A limit on tokens is passed.
    #[error("Limit")]
    Limit(LimitName),
    /// Memory was wanted and not given.
    #[error("NoMemory")]
    NoMemory,
}

/// The fault that this flaw is at a place.
pub(crate) fn fault_at(flaw: Flaw, place: Place) -> LexFault
    ensures { result ≡ fault_at flaw place }
{
    match flaw {
        Flaw::BadByte => LexFault::BadByte(place),
        Flaw::BadNumber => LexFault::BadNumber(place),
        Flaw::NumberTooWide => LexFault::NumberTooWide(place),
        Flaw::OpenComment => LexFault::OpenComment(place),
        Flaw::OpenString => LexFault::OpenString(place),
        Flaw::Directive => LexFault::Directive(place),
        Flaw::ReservedName => LexFault::ReservedName(place),
    }
}
