ghost use Rattle.std.specs.Prelude.{◌≡◌, ◌≤◌, ◌^◌, length};
ghost use Rattle.cvd_cursor.specs.Numerals.{number_tokens};
ghost use Rattle.cvd_cursor.specs.Reads.{Reads, marks};
ghost use Rattle.cvd_nodes.specs.Heads.{look_up};
ghost use Rattle.cvd_targets.specs.TargetParts.{TargetIn, form_table, form_tokens, made, part_marks, part_target, parts_marks};
ghost use Rattle.cvd_targets.specs.TargetParts.{word_marks, word_part_marks, word_part_target, word_target};
ghost use Rattle.cvd_text.specs.Targets.{target_tokens};
ghost use Rattle.design_tree.specs.declared.step.Target.TheVariants as targets;
ghost use Rattle.cvd_step_laws.specs.LineMarks.{with_vars};

use crate::destination::find_named;
use crate::position::read_position;
use crate::written::{part_of, whole_of, word_of, word_part_of};
use cov_types::{ProcessKind, Var};
use cvd_cursor::{Cursor, ReadFault};
use cvd_nodes::{number8, number32};
use design_tree::Target;
use std::alloc::Global;

/// The first word of a target.
#[derive(Clone, Copy, Debug)]
pub(crate) enum TargetForm {
    Whole,
    Part,
    Word,
    WordPart,
}

/// A target with its width and the number of its nodes.
#[derive(Drop)]
pub(crate) struct Written {
    pub(crate) target: Target,
    pub(crate) width: u8,
    pub(crate) nodes: usize,
}

/// A target, or nothing where a process of this kind may not write it.
pub(crate) fn read_target(
    alloc: Global,
    cursor: &mut Cursor<'_>,
    vars: &[Var],
    kind: ProcessKind,
) -> Result<Option<Written>, ReadFault>
    requires { length vars.now ≤ 2 ^ 32 }
    ensures { Reads (marks target_tokens) (TargetIn (with_vars vars.now) kind) cursor.old result cursor.new }
{
    let form = read_form(cursor)?;
    let held = rest(alloc, cursor, vars, kind, form)?;
    Ok(held)
}

fn read_form(cursor: &mut Cursor<'_>) -> Result<TargetForm, ReadFault>
    ensures { Reads (marks form_tokens) (λ f held. held ≡ f) cursor.old result cursor.new }
{
    let Some(word) = cursor.peek() else {
        return Err(cursor.wrong(false));
    };
    let Some(form) = form_of(word) else {
        return Err(ReadFault::BadToken);
    };
    cursor.skip();
    Ok(form)
}

fn form_of(word: &[u8]) -> Option<TargetForm>
    ensures { result ≡ look_up form_table word.now }
{
    if word == b"w".as_slice() {
        Some(TargetForm::Whole)
    } else if word == b"b".as_slice() {
        Some(TargetForm::Part)
    } else if word == b"m".as_slice() {
        Some(TargetForm::Word)
    } else if word == b"q".as_slice() {
        Some(TargetForm::WordPart)
    } else {
        None
    }
}

/// What follows the first word.
fn rest(
    alloc: Global,
    cursor: &mut Cursor<'_>,
    vars: &[Var],
    kind: ProcessKind,
    form: TargetForm,
) -> Result<Option<Written>, ReadFault>
    requires { length vars.now ≤ 2 ^ 32 }
    ensures { Reads (parts_marks form) (λ p held. TargetIn (with_vars vars.now) kind (made form p) held) cursor.old result cursor.new }
{
    match form {
        TargetForm::Whole => whole(cursor, vars, kind),
        TargetForm::Part => part(alloc, cursor, vars, kind),
        TargetForm::Word => word(alloc, cursor, vars, kind),
        TargetForm::WordPart => word_part(alloc, cursor, vars, kind),
    }
}

fn whole(
    cursor: &mut Cursor<'_>,
    vars: &[Var],
    kind: ProcessKind,
) -> Result<Option<Written>, ReadFault>
    requires { length vars.now ≤ 2 ^ 32 }
    ensures { Reads (marks number_tokens) (λ v held. TargetIn (with_vars vars.now) kind (targets.Whole v) held) cursor.old result cursor.new }
{
    let var = number32(cursor)?;
    Ok(whole_of(find_named(vars, kind, var)))
}

fn part(
    alloc: Global,
    cursor: &mut Cursor<'_>,
    vars: &[Var],
    kind: ProcessKind,
) -> Result<Option<Written>, ReadFault>
    requires { length vars.now ≤ 2 ^ 32 }
    ensures { Reads part_marks (λ p held. TargetIn (with_vars vars.now) kind (part_target p) held) cursor.old result cursor.new }
{
    let var = number32(cursor)?;
    let width = number8(cursor)?;
    let at = read_position(alloc, cursor, vars)?;
    Ok(part_of(find_named(vars, kind, var), width, at))
}

fn word(
    alloc: Global,
    cursor: &mut Cursor<'_>,
    vars: &[Var],
    kind: ProcessKind,
) -> Result<Option<Written>, ReadFault>
    requires { length vars.now ≤ 2 ^ 32 }
    ensures { Reads word_marks (λ p held. TargetIn (with_vars vars.now) kind (word_target p) held) cursor.old result cursor.new }
{
    let var = number32(cursor)?;
    let at = read_position(alloc, cursor, vars)?;
    Ok(word_of(find_named(vars, kind, var), at))
}

fn word_part(
    alloc: Global,
    cursor: &mut Cursor<'_>,
    vars: &[Var],
    kind: ProcessKind,
) -> Result<Option<Written>, ReadFault>
    requires { length vars.now ≤ 2 ^ 32 }
    ensures { Reads word_part_marks (λ p held. TargetIn (with_vars vars.now) kind (word_part_target p) held) cursor.old result cursor.new }
{
    let var = number32(cursor)?;
    let index = read_position(alloc, cursor, vars)?;
    let width = number8(cursor)?;
    let at = read_position(alloc, cursor, vars)?;
    Ok(word_part_of(find_named(vars, kind, var), index, width, at))
}
