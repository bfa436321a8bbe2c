//! The words behind a command, as pieces.

ghost use Rattle.std.specs.Prelude.{◌≡◌, ◌<◌, ◌^◌, is_some, length, map, string_bytes};
ghost use Rattle.std.specs.Iterator.{YieldsFirstBy, item_count};
ghost use Rattle.cov_words.specs.Pieces.{pieces_of};
ghost use Rattle.cov_words.specs.Seen.{seen_piece};

use crate::front::{Front, front_of};
use crate::piece::Piece;
use crate::table::CommandName;
use std::marker::Model;

/// The words behind a command, which contracts see as their pieces.
#[derive(Drop)]
pub(crate) struct Arguments<'a> {
    command: CommandName,
    words: &'a [String],
}

impl<'a> Model for Arguments<'a> {
    ghost use Rattle.std.specs.Prelude.{List, [], IsTrue, is_some, map, string_bytes, unwrap_or};
    ghost use Rattle.cov_words.specs.Cut.{Piece};
    ghost use Rattle.cov_words.specs.Pieces.{pieces_of};

    ghost Value = { List Piece };

    ghost view = { λ a. unwrap_or (pieces_of a.command (map string_bytes a.words.now)) [] };

    ghost invariant = { λ a. IsTrue (is_some (pieces_of a.command (map string_bytes a.words.now))) };
}

impl<'a> Arguments<'a> {
    /// The words behind the command, if they have pieces.
    pub(crate) fn read(command: CommandName, words: &'a [String]) -> Option<Arguments<'a>>
        ensures { result ≡ pieces_of command (map string_bytes words.now) }
    {
        if have_pieces(command, words) {
            Some(Arguments { command, words })
        } else {
            None
        }
    }

    /// The pieces, in order.
    pub(crate) fn pieces(&self) -> Pieces<'a>
        ensures same { result ≡ self.now }
        ensures short { length self.now < 2 ^ 64 }
    {
        Pieces {
            command: self.command,
            words: self.words,
            only_names: false,
        }
    }
}

/// Goes over the pieces of words, which contracts see as those that are left.
#[derive(Drop)]
pub(crate) struct Pieces<'a> {
    command: CommandName,
    words: &'a [String],
    // Whether a `--` was met.
    only_names: bool,
}

impl<'a> Model for Pieces<'a> {
    ghost use Rattle.std.specs.Prelude.{List, [], IsTrue, is_some, map, string_bytes, unwrap_or};
    ghost use Rattle.cov_words.specs.Cut.{Piece};
    ghost use Rattle.cov_words.specs.Left.{pieces_left};

    ghost Value = { List Piece };

    ghost view = { λ a. unwrap_or (pieces_left a.command a.only_names (map string_bytes a.words.now)) [] };

    ghost invariant = { λ a. IsTrue (is_some (pieces_left a.command a.only_names (map string_bytes a.words.now))) };
}

impl<'a> Iterator for Pieces<'a> {
    type Item = Piece<'a>;

    ghost next_gives = { YieldsFirstBy seen_piece (λ pieces. pieces) };

    ghost remaining = { item_count (λ pieces. pieces) };

    fn next(&mut self) -> Option<Piece<'a>> {
        match front_of(self.command, self.words, self.only_names) {
            Front::Next {
                piece,
                rest,
                only_names,
            } => {
                self.words = rest;
                self.only_names = only_names;
                Some(piece)
            }
            // Words that have pieces are not refused.
            Front::End | Front::Refused => None,
        }
    }
}

fn have_pieces(command: CommandName, words: &[String]) -> bool
    ensures { result ≡ is_some (pieces_of command (map string_bytes words.now)) }
{
    let mut left = words;
    let mut only_names = false;
    'fronts: loop {
        match front_of(command, left, only_names) {
            Front::End => return true,
            Front::Refused => return false,
            Front::Next {
                rest,
                only_names: met,
                ..
            } => {
                left = rest;
                only_names = met;
            }
        }
    }
}
