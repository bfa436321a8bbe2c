//! A cursor over the pieces of a text.

ghost use Rattle.std.specs.Prelude.{◌≡◌, ◌+◌, ◌*◌, ◌<◌, ◌≤◌, ◌^◌, length};
ghost use Rattle.std.specs.Option.{option_copied};
ghost use Rattle.cvd_text.specs.Pieces.{pieces_of};
ghost use Rattle.cvd_cursor.specs.Places.{IsLineStart, behind_word, first_word};
ghost use Rattle.cvd_cursor.specs.Reads.{Reads, line_marks, is_nothing, fault_of};

use crate::fault::ReadFault;
use memchr::{memchr2, memrchr};
use std::marker::Model;

/// The pieces of a text that are left: words between blanks, and line feeds. What no line feed ends is none of them.
#[derive(Drop)]
pub struct Cursor<'a> {
    text: &'a [u8],
    /// What is left up to the last line feed, without the line feed that comes next.
    rest: &'a [u8],
    /// The number of bytes behind the last line feed.
    behind: usize,
    /// Whether a line feed comes next.
    at_feed: bool,
}

impl<'a> Model for Cursor<'a> {
    ghost use Rattle.cvd_cursor.specs.Places.{IsPlaced, Reading, pieces_left};

    ghost Value = { Reading };

    ghost view = { λ c. record { text = c.text.now; rest = pieces_left c.at_feed c.rest.now } };

    ghost invariant = { λ c. IsPlaced c.text.now c.rest.now c.behind c.at_feed };
}

impl<'a> Cursor<'a> {
    /// All pieces of a text.
    pub fn new(text: &'a [u8]) -> Cursor<'a>
        ensures text { result.text ≡ text.now }
        ensures rest { result.rest ≡ pieces_of text.now }
    {
        let end = match memrchr(b'\n', text) {
            Some(at) => at + 1,
            None => 0,
        };
        Cursor {
            text,
            rest: &text[..end],
            behind: text.len() - end,
            at_feed: false,
        }
    }

    /// The word that comes next.
    pub fn peek(&self) -> Option<&'a [u8]>
        ensures { option_copied result ≡ first_word self.now.rest }
    {
        if self.at_feed {
            return None;
        }
        match memchr2(b' ', b'\n', self.rest) {
            Some(at) => Some(&self.rest[..at]),
            None => None,
        }
    }

    /// Passes over the word that comes next.
    pub fn skip(&mut self)
        ensures text { self.new.text ≡ self.old.text }
        ensures rest { self.new.rest ≡ behind_word self.old.rest }
    {
        if self.at_feed {
            return;
        }
        if let Some(at) = memchr2(b' ', b'\n', self.rest) {
            self.at_feed = self.rest[at] == b'\n';
            self.rest = &self.rest[at + 1..];
        }
    }

    /// Whether nothing is left.
    pub fn is_empty(&self) -> bool
        ensures { result ≡ is_nothing self.now.rest }
    {
        !self.at_feed && self.rest.is_empty()
    }

    /// The fault of another piece than the token that must come next.
    pub fn wrong(&self, numeric: bool) -> ReadFault
        ensures { result ≡ fault_of numeric self.now.rest }
    {
        if self.is_empty() {
            ReadFault::Truncated
        } else if numeric {
            ReadFault::BadNumber
        } else {
            ReadFault::BadToken
        }
    }

    /// Passes over the line feed that must come next, where the line stands.
    pub fn end_line(&mut self, stands: bool) -> Result<(), ReadFault>
        ensures { Reads (line_marks stands) (λ _ _. Unit {0}) self.old result self.new }
    {
        if !self.at_feed {
            return Err(self.wrong(false));
        }
        if !stands {
            return Err(ReadFault::BadShape);
        }
        self.at_feed = false;
        Ok(())
    }

    /// How many bytes are left at least.
    pub fn bytes_left(&self) -> usize
        ensures most { length self.now.rest ≤ 2 * result + 1 }
        ensures small { result < 2 ^ 63 }
    {
        self.rest.len()
    }

    /// Where the line begins that the next piece stands in, in bytes.
    pub fn place(&self) -> usize
        ensures { IsLineStart self.now result }
    {
        let at = self.text.len() - self.behind - self.rest.len();
        let before = if self.at_feed { at - 1 } else { at };
        match memrchr(b'\n', &self.text[..before]) {
            Some(feed) => feed + 1,
            None => 0,
        }
    }
}
