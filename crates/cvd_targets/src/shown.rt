//! The kinds of displayed piece, put together and tested.

ghost use Rattle.std.specs.Prelude.{◌≡◌, ◌≤◌, All, IsTrue, true};
ghost use Rattle.cvd_targets.specs.PieceParts.{PieceIn};
ghost use Rattle.cvd_targets.specs.Positions.{ExpressionIn};
ghost use Rattle.cvd_text.specs.Targets.{is_piece, piece_nodes};
ghost use Rattle.design_meaning.specs.Mentions.{piece_length};
ghost use Rattle.design_meaning.specs.ValidVariables.{IsVariable};
ghost use Rattle.design_meaning.specs.WellTyped as typed;
ghost use Rattle.design_tree.specs.declared.design.Design.{Design};
ghost use Rattle.design_tree.specs.declared.step.Piece.TheVariants as pieces;
ghost use Rattle.design_tree.specs.declared.typed.Typed.{Typed as AnyTyped};

use crate::piece::Shown;
use cov_types::ByteText;
use cvd_expressions::Expression;
use design_tree::Piece;
use piece_text::{columns_of, hex_digits};

/// The greatest number of bytes that a design may display.
const MOST: usize = 16_777_216;

/// A piece, unless it displays too much.
fn finished(piece: Piece, nodes: usize, shown: usize) -> Option<Shown>
    ensures { (d : Design) → is_piece d piece ≡ true → nodes ≡ piece_nodes piece → piece_nodes piece ≤ 4194304 → shown ≡ piece_length d piece → PieceIn d
        piece result }
{
    if shown > MOST {
        drop(piece);
        return None;
    }
    Some(Shown {
        piece,
        nodes,
        shown,
    })
}

pub(crate) fn text_piece(bytes: ByteText) -> Option<Shown>
    ensures { (d : Design) → PieceIn d (pieces.Text bytes) result }
{
    let shown = bytes.len();
    if shown == 0 {
        return None;
    }
    finished(Piece::Text(bytes), 0, shown)
}

pub(crate) fn dec_piece(signed: bool, short: bool, value: Option<Expression>) -> Option<Shown>
    ensures { (d : Design) (e : AnyTyped) → All IsVariable d.vars → ExpressionIn d e value → PieceIn d (pieces.Dec signed short e) result }
{
    let Some(value) = value else {
        return None;
    };
    let Expression { tree, width, nodes } = value;
    if !is_width(width) {
        return None;
    }
    let shown = columns_of(width, signed) as usize;
    let piece = Piece::Dec {
        signed,
        short,
        value: tree.into_inner(),
    };
    finished(piece, nodes, shown)
}

pub(crate) fn hex_piece(short: bool, value: Option<Expression>) -> Option<Shown>
    ensures { (d : Design) (e : AnyTyped) → All IsVariable d.vars → ExpressionIn d e value → PieceIn d (pieces.Hex short e) result }
{
    let Some(value) = value else {
        return None;
    };
    let Expression { tree, width, nodes } = value;
    if !is_width(width) {
        return None;
    }
    let shown = hex_digits(width) as usize;
    let piece = Piece::Hex {
        short,
        value: tree.into_inner(),
    };
    finished(piece, nodes, shown)
}

pub(crate) fn bin_piece(short: bool, value: Option<Expression>) -> Option<Shown>
    ensures { (d : Design) (e : AnyTyped) → ExpressionIn d e value → PieceIn d (pieces.Bin short e) result }
{
    let Some(value) = value else {
        return None;
    };
    let Expression { tree, width, nodes } = value;
    let piece = Piece::Bin {
        short,
        value: tree.into_inner(),
    };
    finished(piece, nodes, width as usize)
}

/// Whether a width is 1 to 128, as each well typed expression's is.
fn is_width(width: u8) -> bool
    ensures value { result ≡ typed.is_width width }
    ensures some { IsTrue result → 1 ≤ width }
    ensures most { IsTrue result → width ≤ 128 }
{
    1 <= width && width <= 128
}
