//! Lines and columns.

ghost use Rattle.std.specs.Prelude.{◌≡◌, ℕ, ◌+◌, ◌<◌, ◌≤◌, ◌^◌, ◌++◌, List, [], length};
ghost use Rattle.vlog_lexer.specs.Places as spec;
ghost use Rattle.vlog_lexer.specs.PlaceKept.{IsPosition};

use cov_types::Place;

/// A line and a column, both counted from 1.
#[derive(Clone, Copy)]
pub(crate) struct Position {
    pub line: usize,
    pub column: usize,
}

impl Position {
    /// The first line and column.
    pub(crate) fn start() -> Position
        ensures value { IsPosition [] result }
        ensures line { result.line ≡ 1 }
        ensures column { result.column ≡ 1 }
    {
        Position { line: 1, column: 1 }
    }

    /// The position behind these bytes.
    pub(crate) fn after(self, bytes: &[u8]) -> Position
        requires line { self.line + length bytes.now < 2 ^ 64 }
        requires column { self.column + length bytes.now < 2 ^ 64 }
        ensures value { (before : List ℕ) → IsPosition before self → IsPosition (before ++ bytes.now) result }
        ensures line { result.line ≤ self.line + length bytes.now }
        ensures column { result.column ≤ self.column + length bytes.now }
    {
        let mut line = self.line;
        let mut column = self.column;
        for byte in bytes {
            if *byte == b'\n' {
                line += 1;
                column = 1;
            } else {
                column += 1;
            }
        }
        Position { line, column }
    }

    /// The place at this position of a file.
    pub(crate) fn place(self, file: u32) -> Place
        requires line { self.line < 2 ^ 32 }
        requires column { self.column < 2 ^ 32 }
        ensures { (before : List ℕ) → IsPosition before self → result ≡ spec.place_after file before }
    {
        Place {
            file,
            line: self.line as u32,
            column: self.column as u32,
        }
    }
}
