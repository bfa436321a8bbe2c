//! The names among the words of a command.

ghost use Rattle.std.specs.Prelude.{◌≡◌, IfOk, length, map};
ghost use Rattle.cov_words.specs.Command.{names_of};

use crate::arguments::Arguments;
use crate::piece::Piece;
use cov_port::NoMemory;
use std::alloc::Global;
use std::marker::Model;

/// The names among the words of a command, in order, each of 1 to 4,096 bytes. Contracts see the
/// list of the names' bytes. It borrows the words, and holds no memory.
#[derive(Drop)]
pub struct Names<'a> {
    arguments: Arguments<'a>,
}

impl<'a> Model for Names<'a> {
    ghost use Rattle.std.specs.Prelude.{List, ℕ};
    ghost use Rattle.cov_words.specs.Command.{names_of};

    ghost Value = { List (List ℕ) };

    ghost view = { λ n. names_of n.arguments };
}

impl<'a> Names<'a> {
    /// The names among the words behind a command.
    pub(crate) fn of(arguments: Arguments<'a>) -> Names<'a>
        ensures { result ≡ names_of arguments.entry }
    {
        Names { arguments }
    }

    /// How many names there are. It goes over the words again.
    pub fn len(&self) -> usize
        ensures { result ≡ length self.now }
    {
        self.arguments.count_names()
    }

    /// The names, in order. It fails only for want of memory.
    pub fn collect(&self, alloc: Global) -> Result<Vec<&'a str>, NoMemory>
        ensures { IfOk result (λ names. map (λ name. name.now) names.items ≡ self.now) }
    {
        let mut names = Vec::new(alloc);
        for piece in self.arguments.pieces() {
            if let Piece::Name(name) = piece {
                names.push(name)?;
            }
        }
        Ok(names)
    }
}
