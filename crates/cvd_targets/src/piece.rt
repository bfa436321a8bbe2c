ghost use Rattle.std.specs.Prelude.{◌≡◌, ◌≤◌, ◌^◌, All, length};
ghost use Rattle.cvd_cursor.specs.Reads.{Reads, marks};
ghost use Rattle.cvd_nodes.specs.Heads.{look_up};
ghost use Rattle.cvd_targets.specs.PieceParts.{PieceIn, dec_marks, digits_tokens, form_table, form_tokens, made, parts_marks};
ghost use Rattle.cvd_text.specs.Expressions.{tokens_of};
ghost use Rattle.cvd_text.specs.Targets.{piece_tokens};
ghost use Rattle.design_meaning.specs.ValidVariables.{IsVariable};
ghost use Rattle.design_tree.specs.declared.step.Piece.TheVariants as pieces;
ghost use Rattle.cvd_step_laws.specs.LineMarks.{with_vars};

use crate::digits::read_digits;
use crate::shown::{bin_piece, dec_piece, hex_piece, text_piece};
use cov_types::Var;
use cvd_cursor::{Cursor, ReadFault, sign};
use cvd_expressions::read_expression;
use design_tree::Piece;
use std::alloc::Global;

/// The first word of a displayed piece; `short` is of a capital letter.
#[derive(Clone, Copy, Debug)]
pub(crate) enum PieceForm {
    Text,
    Dec(bool),
    Hex(bool),
    Bin(bool),
}

/// A displayed piece with the number of its nodes and the most bytes that it displays.
#[derive(Drop)]
pub(crate) struct Shown {
    pub(crate) piece: Piece,
    pub(crate) nodes: usize,
    pub(crate) shown: usize,
}

/// A displayed piece, or nothing where it may not stand.
pub(crate) fn read_piece(
    alloc: Global,
    cursor: &mut Cursor<'_>,
    vars: &[Var],
) -> Result<Option<Shown>, ReadFault>
    requires few { length vars.now ≤ 2 ^ 32 }
    requires variables { All IsVariable vars.now }
    ensures { Reads (marks piece_tokens) (PieceIn (with_vars vars.now)) cursor.old result cursor.new }
{
    let form = read_form(cursor)?;
    let held = rest(alloc, cursor, vars, form)?;
    Ok(held)
}

fn read_form(cursor: &mut Cursor<'_>) -> Result<PieceForm, ReadFault>
    ensures { Reads (marks form_tokens) (λ f held. held ≡ f) cursor.old result cursor.new }
{
    let Some(word) = cursor.peek() else {
        return Err(cursor.wrong(false));
    };
    let Some(form) = form_of(word) else {
        return Err(ReadFault::BadToken);
    };
    cursor.skip();
    Ok(form)
}

fn form_of(word: &[u8]) -> Option<PieceForm>
    ensures { result ≡ look_up form_table word.now }
{
    if word == b"t".as_slice() {
        Some(PieceForm::Text)
    } else if word == b"d".as_slice() {
        Some(PieceForm::Dec(false))
    } else if word == b"D".as_slice() {
        Some(PieceForm::Dec(true))
    } else if word == b"h".as_slice() {
        Some(PieceForm::Hex(false))
    } else if word == b"H".as_slice() {
        Some(PieceForm::Hex(true))
    } else if word == b"b".as_slice() {
        Some(PieceForm::Bin(false))
    } else if word == b"B".as_slice() {
        Some(PieceForm::Bin(true))
    } else {
        None
    }
}

/// What follows the first word.
fn rest(
    alloc: Global,
    cursor: &mut Cursor<'_>,
    vars: &[Var],
    form: PieceForm,
) -> Result<Option<Shown>, ReadFault>
    requires few { length vars.now ≤ 2 ^ 32 }
    requires variables { All IsVariable vars.now }
    ensures { Reads (parts_marks form) (λ p held. PieceIn (with_vars vars.now) (made form p) held) cursor.old result cursor.new }
{
    match form {
        PieceForm::Text => text(alloc, cursor, vars),
        PieceForm::Dec(short) => dec(alloc, cursor, vars, short),
        PieceForm::Hex(short) => hex(alloc, cursor, vars, short),
        PieceForm::Bin(short) => bin(alloc, cursor, vars, short),
    }
}

fn text(alloc: Global, cursor: &mut Cursor<'_>, vars: &[Var]) -> Result<Option<Shown>, ReadFault>
    ensures { Reads (marks digits_tokens) (λ bytes held. PieceIn (with_vars vars.now) (pieces.Text bytes) held) cursor.old result cursor.new }
{
    let bytes = read_digits(alloc, cursor)?;
    Ok(text_piece(bytes))
}

fn dec(
    alloc: Global,
    cursor: &mut Cursor<'_>,
    vars: &[Var],
    short: bool,
) -> Result<Option<Shown>, ReadFault>
    requires few { length vars.now ≤ 2 ^ 32 }
    requires variables { All IsVariable vars.now }
    ensures { Reads dec_marks (λ p held. PieceIn (with_vars vars.now) (pieces.Dec p.0 short p.1) held) cursor.old result cursor.new }
{
    let signed = sign(cursor)?;
    let value = read_expression(alloc, cursor, vars)?;
    Ok(dec_piece(signed, short, value))
}

fn hex(
    alloc: Global,
    cursor: &mut Cursor<'_>,
    vars: &[Var],
    short: bool,
) -> Result<Option<Shown>, ReadFault>
    requires few { length vars.now ≤ 2 ^ 32 }
    requires variables { All IsVariable vars.now }
    ensures { Reads (marks tokens_of) (λ e held. PieceIn (with_vars vars.now) (pieces.Hex short e) held) cursor.old result cursor.new }
{
    let value = read_expression(alloc, cursor, vars)?;
    Ok(hex_piece(short, value))
}

fn bin(
    alloc: Global,
    cursor: &mut Cursor<'_>,
    vars: &[Var],
    short: bool,
) -> Result<Option<Shown>, ReadFault>
    requires { length vars.now ≤ 2 ^ 32 }
    ensures { Reads (marks tokens_of) (λ e held. PieceIn (with_vars vars.now) (pieces.Bin short e) held) cursor.old result cursor.new }
{
    let value = read_expression(alloc, cursor, vars)?;
    Ok(bin_piece(short, value))
}
