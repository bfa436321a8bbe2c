//! What words begin with.

ghost use Rattle.cov_words.specs.Left.{IsFront};
ghost use Rattle.std.specs.Prelude.{true, map, string_bytes};

use crate::piece::{Opening, Piece, read_opening};
use crate::table::CommandName;

/// What words begin with.
#[derive(Clone, Copy)]
pub(crate) enum Front<'a> {
    /// There are no words.
    End,
    /// The first word can't stand there, or lacks its value.
    Refused,
    /// A piece, the words behind it, and whether these are names alone.
    Next {
        piece: Piece<'a>,
        rest: &'a [String],
        only_names: bool,
    },
}

/// What the words behind a command begin with, where `only_names` says that a `--` was met.
pub(crate) fn front_of(command: CommandName, words: &[String], only_names: bool) -> Front<'_>
    ensures { IsFront command only_names (map string_bytes words.now) result }
{
    if only_names {
        return first_name(command, words);
    }
    let [word, rest @ ..] = words else {
        return Front::End;
    };
    if word.as_str() == "--" {
        return first_name(command, rest);
    }
    match read_opening(command, word.as_str()) {
        None => Front::Refused,
        Some(Opening::Whole(piece)) => Front::Next {
            piece,
            rest,
            only_names: false,
        },
        Some(Opening::Waiting(option)) => match rest {
            [] => Front::Refused,
            [value, rest @ ..] => Front::Next {
                piece: Piece::Given(option, value.as_str()),
                rest,
                only_names: false,
            },
        },
    }
}

/// The first of names.
fn first_name(command: CommandName, words: &[String]) -> Front<'_>
    ensures { IsFront command true (map string_bytes words.now) result }
{
    match words {
        [] => Front::End,
        [word, rest @ ..] => Front::Next {
            piece: Piece::Name(word.as_str()),
            rest,
            only_names: true,
        },
    }
}
