//! The lines of a script.

use crate::token_list::{fault_alone, places, tokens_told};
use crate::tree::{is_read, tree_told};
use anyhow::anyhow;
use std::alloc::Global;

/// The text of a case, as far as it has come.
#[derive(Drop)]
pub(crate) struct Script {
    alloc: Global,
    text: Vec<u8>,
}

/// A text before the first blank, and the one behind it.
fn cut(text: &str) -> (&str, &str) {
    text.split_once(' ').unwrap_or((text, ""))
}

impl Script {
    /// No text yet.
    pub(crate) fn new(alloc: Global) -> Script {
        Script {
            alloc,
            text: Vec::new(alloc),
        }
    }

    /// Follows a line: `text`, `byte` and `times` make the text longer, the others end it and say what it is read as. An
    /// empty line and one that begins with `#` do nothing.
    pub(crate) fn follow(&mut self, line: &str) -> anyhow::Result<Option<String>> {
        let (name, rest) = cut(line);
        match name {
            "" | "#" => Ok(None),
            "text" => self.add(rest),
            "byte" => self.add_byte(rest),
            "times" => self.add_times(rest),
            _ => self.tell(name, rest),
        }
    }

    fn add(&mut self, piece: &str) -> anyhow::Result<Option<String>> {
        self.text.extend_from_slice(piece.as_bytes())?;
        Ok(None)
    }

    /// `NUMBER`
    fn add_byte(&mut self, rest: &str) -> anyhow::Result<Option<String>> {
        self.text.push(rest.parse::<u8>()?)?;
        Ok(None)
    }

    /// `COUNT PIECE`
    fn add_times(&mut self, rest: &str) -> anyhow::Result<Option<String>> {
        let (count, piece) = cut(rest);
        for _turn in 0..count.parse::<u32>()? {
            self.text.extend_from_slice(piece.as_bytes())?;
        }
        Ok(None)
    }

    /// What the text with this last piece is read as. The next case begins without text.
    fn tell(&mut self, name: &str, piece: &str) -> anyhow::Result<Option<String>> {
        self.text.extend_from_slice(piece.as_bytes())?;
        let told = self.told(name)?;
        self.text.clear();
        Ok(Some(told))
    }

    fn told(&self, name: &str) -> anyhow::Result<String> {
        let text = self.text.as_slice();
        match name {
            "tokens" => tokens_told(self.alloc, text),
            "places" => places(self.alloc, text),
            "fault" => fault_alone(self.alloc, text),
            "tree" => tree_told(self.alloc, text),
            "read" => is_read(self.alloc, text),
            _ => Err(anyhow!("no such line: {name}")),
        }
    }
}
