ghost use Rattle.std.specs.Prelude.{◌≡◌, ◌≤◌, ◌<◌, ◌+◌, ◌*◌, ◌++◌, [], All, IfOk, length};
ghost use Rattle.circuit_run.specs.Runs.{output_line};

use cov_types::NoMemory;
use cycle_parts::{put_outputs, put_text};
use flat_design::State;
use std::alloc::Global;
use std::marker::Model;

/// The text of a cycle, with room for more.
#[derive(Drop)]
pub struct Line {
    bytes: Vec<u8>,
    room: usize,
}

impl Model for Line {
    ghost use Rattle.std.specs.Prelude.{◌≤◌, vec_capacity};
    ghost use Rattle.cycle_run.specs.Lines as seen;

    ghost Value = { seen.Line };

    ghost view = { λ l. record { bytes = l.bytes.items; room = l.room } };

    ghost invariant = { λ l. l.room ≤ vec_capacity l.bytes };
}

impl Line {
    /// No text, with room for so many bytes.
    pub fn with_room(alloc: Global, room: usize) -> Result<Line, NoMemory>
        ensures { IfOk result (λ l. l ≡ record { bytes = []; room = room }) }
    {
        Ok(Line {
            bytes: Vec::with_capacity(alloc, room)?,
            room,
        })
    }

    /// Takes the text off.
    pub fn clear(&mut self)
        ensures { self.new ≡ record self.old { bytes = [] } }
    {
        self.bytes.clear();
    }

    /// Puts the line of outputs in place of the text.
    pub fn print_outputs(&mut self, outputs: &[u32], state: &State)
        requires outputs { All (λ v. v < length state.now) outputs.now }
        requires room { 33 * length outputs.now + 1 ≤ self.old.room }
        ensures text { self.new ≡ record self.old { bytes = output_line outputs.now state.now } }
        ensures len { length self.new.bytes ≤ 33 * length outputs.now + 1 }
    {
        self.bytes.clear();
        put_outputs(&mut self.bytes, outputs, state);
    }

    /// Puts text behind the text. There is room for it.
    pub fn print_text(&mut self, text: &[u8])
        requires { length self.old.bytes + length text.now ≤ self.old.room }
        ensures { self.new ≡ record self.old { bytes = self.old.bytes ++ text.now } }
    {
        put_text(&mut self.bytes, text);
    }

    /// The text.
    pub fn bytes(&self) -> &[u8]
        ensures { result.now ≡ self.now.bytes }
    {
        self.bytes.as_slice()
    }
}
