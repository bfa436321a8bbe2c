//! What is written down, piece by piece.

use cov_types::{ByteText, NoMemory, Place};
use std::alloc::Global;
use std::fmt::{Debug, Write};
use vlog_tree::NamePlace;

/// A text that pieces are put behind. A piece that finds no memory is told of at the end, so that what is written down is
/// a list of pieces.
#[derive(Drop)]
pub(crate) struct Page {
    text: String,
    whole: bool,
}

impl Page {
    pub(crate) fn new(alloc: Global) -> Page {
        Page {
            text: String::new(alloc),
            whole: true,
        }
    }

    /// The text, if each piece found memory.
    pub(crate) fn into_text(self) -> Result<String, NoMemory> {
        let Page { text, whole } = self;
        if !whole {
            return Err(NoMemory);
        }
        Ok(text)
    }

    pub(crate) fn put(&mut self, piece: &str) {
        if self.text.push_str(piece).is_err() {
            self.whole = false;
        }
    }

    pub(crate) fn number(&mut self, number: u128) {
        if write!(self.text, "{number}").is_err() {
            self.whole = false;
        }
    }

    /// The name of an operator, a port's kind or the like.
    pub(crate) fn word<T: Debug>(&mut self, word: &T) {
        if write!(self.text, "{word:?}").is_err() {
            self.whole = false;
        }
    }

    pub(crate) fn signed(&mut self, is: bool) {
        if is {
            self.put(" signed");
        }
    }

    pub(crate) fn bytes(&mut self, bytes: &ByteText) {
        for byte in bytes.as_slice() {
            if self.text.push(char::from(*byte)).is_err() {
                self.whole = false;
            }
        }
    }

    pub(crate) fn place(&mut self, place: Place) {
        if write!(self.text, "@{}:{}", place.line, place.column).is_err() {
            self.whole = false;
        }
    }

    pub(crate) fn named(&mut self, name: &NamePlace) {
        self.put(" ");
        self.bytes(&name.name);
        self.place(name.place);
    }
}
