ghost use Rattle.std.specs.Prelude.{◌≡◌, ◌≤◌, ◌<◌, ◌+◌, ◌*◌, ◌++◌, ◌∷◌, All, flat_map, length, vec_len, vec_capacity};
ghost use Rattle.circuit_run.specs.Runs.{output_line, output_text};
ghost use Rattle.cycle_parts.specs.Lines.{joined_texts};

use design_state::{Position, State};
use piece_text::put_hex;

/// An output takes at most so many bytes of the line, with the byte behind it.
pub const OUTPUT_COLUMNS: usize = 33;

/// Puts bytes behind those that are there. There is room for them.
pub fn put_text(line: &mut Vec<u8>, text: &[u8])
    requires { vec_len line.old + length text.now ≤ vec_capacity line.old }
    ensures items { line.new.items ≡ line.old.items ++ text.now }
    ensures capacity { vec_capacity line.old ≤ vec_capacity line.new }
{
    match line.extend_from_slice(text) {
        Ok(()) => {}
        Err(_) => unreachable!(),
    }
}

/// Puts an output's word.
fn put_output(line: &mut Vec<u8>, output: u32, state: &State)
    requires output { output < length state.now }
    requires room { vec_len line.old + 32 ≤ vec_capacity line.old }
    ensures items { line.new.items ≡ line.old.items ++ output_text state.now output }
    ensures len { vec_len line.new ≤ vec_len line.old + 32 }
    ensures capacity { vec_capacity line.old ≤ vec_capacity line.new }
{
    let word = state.word(output, Position::At(0));
    put_hex(line, word, false);
}

/// Puts each of some outputs behind a blank.
fn put_behind(line: &mut Vec<u8>, outputs: &[u32], state: &State)
    requires outputs { All (λ v. v < length state.now) outputs.now }
    requires room { vec_len line.old + 33 * length outputs.now ≤ vec_capacity line.old }
    ensures items { line.new.items ≡ line.old.items ++ flat_map (λ v. 32 ∷ output_text state.now v) outputs.now }
    ensures len { vec_len line.new ≤ vec_len line.old + 33 * length outputs.now }
    ensures capacity { vec_capacity line.old ≤ vec_capacity line.new }
{
    for output in outputs {
        put_text(line, b" ");
        put_output(line, *output, state);
    }
}

/// Puts the outputs with a blank between two.
fn put_joined(line: &mut Vec<u8>, outputs: &[u32], state: &State)
    requires outputs { All (λ v. v < length state.now) outputs.now }
    requires room { vec_len line.old + 33 * length outputs.now ≤ vec_capacity line.old }
    ensures items { line.new.items ≡ line.old.items ++ joined_texts state.now outputs.now }
    ensures len { vec_len line.new ≤ vec_len line.old + 33 * length outputs.now }
    ensures capacity { vec_capacity line.old ≤ vec_capacity line.new }
{
    if outputs.is_empty() {
        return;
    }
    put_output(line, outputs[0], state);
    put_behind(line, &outputs[1..], state);
}

/// Puts the line of outputs. There is room for it.
pub fn put_outputs(line: &mut Vec<u8>, outputs: &[u32], state: &State)
    requires outputs { All (λ v. v < length state.now) outputs.now }
    requires room { vec_len line.old + 33 * length outputs.now + 1 ≤ vec_capacity line.old }
    ensures items { line.new.items ≡ line.old.items ++ output_line outputs.now state.now }
    ensures len { vec_len line.new ≤ vec_len line.old + 33 * length outputs.now + 1 }
    ensures capacity { vec_capacity line.old ≤ vec_capacity line.new }
{
    put_joined(line, outputs, state);
    put_text(line, b"\n");
}
