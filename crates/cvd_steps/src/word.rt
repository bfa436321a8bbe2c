ghost use Rattle.std.specs.Prelude.{◌≡◌};
ghost use Rattle.std.specs.Option.{option_map};
ghost use Rattle.cvd_cursor.specs.Reads.{Reads, marks};
ghost use Rattle.cvd_nodes.specs.Heads.{look_up};
ghost use Rattle.cvd_step_laws.specs.StepMarks.{step_tokens};
ghost use Rattle.cvd_steps.specs.Words.{begins_with_end, head_of, step_table};

use cvd_cursor::{Cursor, ReadFault};

/// The first word of a step.
#[derive(Clone, Copy, Debug)]
pub(crate) enum StepWord {
    Set,
    Later,
    If,
    Case,
    Show,
    Finish,
    Stop,
    Count,
}

/// Takes the first word of a step.
pub(crate) fn read_word(cursor: &mut Cursor<'_>) -> Result<StepWord, ReadFault>
    ensures { Reads (marks step_tokens) (λ h held. head_of held ≡ h) cursor.old result cursor.new }
{
    let Some(word) = cursor.peek() else {
        return Err(cursor.wrong(false));
    };
    let Some(found) = word_of(word) else {
        return Err(ReadFault::BadToken);
    };
    cursor.skip();
    Ok(found)
}

fn word_of(word: &[u8]) -> Option<StepWord>
    ensures { option_map head_of result ≡ look_up step_table word.now }
{
    if word == b"set".as_slice() {
        Some(StepWord::Set)
    } else if word == b"later".as_slice() {
        Some(StepWord::Later)
    } else if word == b"if".as_slice() {
        Some(StepWord::If)
    } else if word == b"case".as_slice() {
        Some(StepWord::Case)
    } else if word == b"show".as_slice() {
        Some(StepWord::Show)
    } else if word == b"finish".as_slice() {
        Some(StepWord::Finish)
    } else if word == b"stop".as_slice() {
        Some(StepWord::Stop)
    } else if word == b"count".as_slice() {
        Some(StepWord::Count)
    } else {
        None
    }
}

/// Whether the end of a block comes next.
pub(crate) fn at_end(cursor: &Cursor<'_>) -> bool
    ensures { result ≡ begins_with_end cursor.now.rest }
{
    match cursor.peek() {
        Some(word) => word == b"end".as_slice(),
        None => false,
    }
}

/// How many steps a block has at least: most have one.
pub(crate) fn first_turns(cursor: &Cursor<'_>) -> u128 {
    if at_end(cursor) { 0 } else { 1 }
}
