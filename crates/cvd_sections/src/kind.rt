//! Kinds of variables and of processes, by their words.

ghost use Rattle.std.specs.Prelude.{◌≡◌, ◌∷◌, []};
ghost use Rattle.cvd_cursor.specs.Reads.{Reads, marks};
ghost use Rattle.cvd_nodes.specs.Heads.{look_up};
ghost use Rattle.cvd_text.specs.Sections.{kind_word, process_word};
ghost use Rattle.cvd_text.specs.Tokens.{word};
ghost use Rattle.cvd_sections.specs.KindTables.{kind_table, process_table};

use cov_types::{ProcessKind, VarKind};
use cvd_cursor::{Cursor, ReadFault};

/// The kind of a variable.
pub(crate) fn read_kind(cursor: &mut Cursor<'_>) -> Result<VarKind, ReadFault>
    ensures { Reads (marks (λ k. word (kind_word k) ∷ [])) (λ k held. held ≡ k) cursor.old result cursor.new }
{
    let Some(word) = cursor.peek() else {
        return Err(cursor.wrong(false));
    };
    let Some(kind) = kind_of(word) else {
        return Err(ReadFault::BadToken);
    };
    cursor.skip();
    Ok(kind)
}

fn kind_of(word: &[u8]) -> Option<VarKind>
    ensures { result ≡ look_up kind_table word.now }
{
    if word == b"i".as_slice() {
        Some(VarKind::Input)
    } else if word == b"r".as_slice() {
        Some(VarKind::Reg)
    } else if word == b"w".as_slice() {
        Some(VarKind::Wire)
    } else {
        None
    }
}

/// The kind of a process.
pub fn read_process_kind(cursor: &mut Cursor<'_>) -> Result<ProcessKind, ReadFault>
    ensures { Reads (marks (λ k. word (process_word k) ∷ [])) (λ k held. held ≡ k) cursor.old result cursor.new }
{
    let Some(word) = cursor.peek() else {
        return Err(cursor.wrong(false));
    };
    let Some(kind) = process_kind_of(word) else {
        return Err(ReadFault::BadToken);
    };
    cursor.skip();
    Ok(kind)
}

fn process_kind_of(word: &[u8]) -> Option<ProcessKind>
    ensures { result ≡ look_up process_table word.now }
{
    if word == b"assign".as_slice() {
        Some(ProcessKind::Assign)
    } else if word == b"comb".as_slice() {
        Some(ProcessKind::Comb)
    } else if word == b"clocked".as_slice() {
        Some(ProcessKind::Clocked)
    } else if word == b"initial".as_slice() {
        Some(ProcessKind::Initial)
    } else if word == b"cover".as_slice() {
        Some(ProcessKind::Cover)
    } else {
        None
    }
}
