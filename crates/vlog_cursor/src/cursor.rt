//! A cursor over tokens.

ghost use Rattle.std.specs.Prelude.{◌≡◌, ◌+◌, ◌<◌, ◌^◌, length, IfSome};
ghost use Rattle.std.specs.Option.{option_copied};
ghost use Rattle.vlog_reading.specs.Reading as spec;
ghost use Rattle.vlog_reading.specs.Reading.{Reads};
ghost use Rattle.vlog_cursor.specs.Words.{kind_of};

use crate::mark::{infix, mark};
use crate::word::{Word, number_of};
use cov_types::Place;
use std::marker::Model;
use vlog_reading::ReadFault;
use vlog_tokens::{Token, TokenKind};
use vlog_tree::BinaryOp;

/// The tokens that are left.
#[derive(Drop)]
pub struct Cursor<'a> {
    rest: &'a [Token],
}

impl<'a> Model for Cursor<'a> {
    ghost use Rattle.std.specs.Prelude.{List};
    ghost use Rattle.vlog_tokens.specs.declared.token.Token.{Token};

    ghost Value = { List Token };

    ghost view = { λ c. c.rest.now };
}

impl<'a> Cursor<'a> {
    /// All these tokens.
    pub fn new(tokens: &'a [Token]) -> Cursor<'a>
        ensures { result ≡ tokens.now }
    {
        Cursor { rest: tokens }
    }

    /// How many tokens are left.
    pub fn left(&self) -> usize
        ensures value { result ≡ length self.now }
        ensures small { result + 1 < 2 ^ 64 }
    {
        self.rest.len()
    }

    /// What the next token is.
    pub fn peek(&self) -> Option<&'a TokenKind>
        ensures { option_copied result ≡ spec.first_kind self.now }
    {
        match self.rest {
            [] => None,
            [first, ..] => Some(&first.what),
        }
    }

    /// The binary operator that comes next, with its level.
    #[tactic(auto, unfolding(vlog_reading::specs::Reading::next_infix))]
    pub fn infix(&self) -> Option<(usize, BinaryOp)>
        ensures value { result ≡ spec.next_infix self.now }
        ensures low { IfSome result (λ found. found.0 < 12) }
    {
        match self.rest {
            [] => None,
            [first, ..] => infix(&first.what),
        }
    }

    /// Where the next token begins.
    pub fn place(&self) -> Place
        ensures { result ≡ spec.first_place self.now }
    {
        match self.rest {
            [] => Place {
                file: 0,
                line: 0,
                column: 0,
            },
            [first, ..] => first.place,
        }
    }

    /// Passes over the next token.
    pub fn skip(&mut self)
        ensures { self.new ≡ spec.rest_of self.old }
    {
        if let [_, rest @ ..] = self.rest {
            self.rest = rest;
        }
    }

    /// Whether a word or a mark comes next.
    #[tactic(auto, unfolding(vlog_reading::specs::Marks::sees))]
    pub fn sees(&self, word: Word) -> bool
        ensures { result ≡ spec.sees (kind_of word) self.now }
    {
        match self.rest {
            [] => false,
            [first, ..] => mark(&first.what) == number_of(word),
        }
    }

    /// Takes a word or a mark where it comes next, and says whether it did.
    #[tactic(auto, unfolding(vlog_reading::specs::Reading::after))]
    pub fn eat(&mut self, word: Word) -> bool
        ensures found { result ≡ spec.sees (kind_of word) self.old }
        ensures after { self.new ≡ spec.after (kind_of word) self.old }
    {
        let found = self.sees(word);
        if found {
            self.skip();
        }
        found
    }

    /// Takes a word or a mark, which has to come next.
    #[tactic(auto, unfolding(vlog_reading::specs::Reading::expect))]
    pub fn expect(&mut self, word: Word) -> Result<(), ReadFault>
        ensures { Reads (spec.expect (kind_of word) self.old) result self.new }
    {
        if self.sees(word) {
            self.skip();
            Ok(())
        } else {
            Err(ReadFault::Syntax)
        }
    }
}
