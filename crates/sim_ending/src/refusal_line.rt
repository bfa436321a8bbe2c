ghost use Rattle.std.specs.Prelude.{◌≡◌, ◌≤◌, ◌∷◌, ◌++◌, [], codes, decimal, length, IfOk};
ghost use Rattle.sim_ending.specs.Lines.{front_of};

use cov_port::{ByteText, NoMemory};
use itoa::Buffer;
use sim_output::append_within;
use std::alloc::Global;
use std::marker::Model;

/// What a line has beside the stimulus' name: `vcov: BadStimulus: ` and a colon before the number, and 20 digits, `: `, the
/// longest code and a line feed behind it.
const BYTES_BEFORE: usize = 20;

const BYTES_BEHIND: usize = 36;

/// The line of a stimulus that is refused, with room for the number and the code. Contracts see its front.
#[derive(Drop)]
pub(crate) struct RefusalLine {
    text: Vec<u8>,
}

impl Model for RefusalLine {
    ghost use Rattle.std.specs.Prelude.{◌≤◌, ◌+◌, ℕ, List, vec_len, vec_capacity};

    ghost Value = { List ℕ };

    ghost view = { λ line. line.text.items };

    ghost invariant = { λ line. vec_len line.text + 36 ≤ vec_capacity line.text };
}

impl RefusalLine {
    /// The front of the line of a stimulus with this name.
    pub(crate) fn reserve(alloc: Global, name: &str) -> Result<RefusalLine, NoMemory>
        ensures { IfOk result (λ line. line ≡ front_of name.now) }
    {
        let room = match name.len().checked_add(BYTES_BEFORE + BYTES_BEHIND) {
            Some(room) => room,
            None => return Err(NoMemory),
        };
        let mut text = Vec::with_capacity(alloc, room)?;
        append_within(&mut text, b"vcov: BadStimulus: ");
        append_within(&mut text, name.as_bytes());
        append_within(&mut text, b":");
        Ok(RefusalLine { text })
    }

    /// The whole line, with the number of the refused line and a code of at most 13 bytes. It takes no memory.
    pub(crate) fn into_line(self, number: u64, code: &[u8]) -> ByteText
        requires { length code.now ≤ 13 }
        ensures { result ≡ self ++ decimal number ++ codes ": " ++ code.now ++ 10 ∷ [] }
    {
        let RefusalLine { text } = self;
        let mut text = text;
        let mut buffer = Buffer::new();
        append_within(&mut text, buffer.format(number).as_bytes());
        append_within(&mut text, b": ");
        append_within(&mut text, code);
        append_within(&mut text, b"\n");
        ByteText::from_vec(text)
    }
}
