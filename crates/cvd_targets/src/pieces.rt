ghost use Rattle.std.specs.Prelude.{◌≡◌, ◌≤◌, ◌^◌, ◌+◌, ◌*◌, ℕ, All, List, ◌++◌, ◌∷◌, [], length, nat_le, ◌&&◌, IfOk};
ghost use Rattle.cvd_cursor.specs.Reads.{Reads};
ghost use Rattle.cvd_targets.specs.Lists.{AreTurns};
ghost use Rattle.cvd_targets.specs.PieceParts.{AreShown, IsShown, PieceIn, PiecesIn, SoFar, counted_pieces};
ghost use Rattle.design_meaning.specs.ValidVariables.{IsVariable};
ghost use Rattle.design_tree.specs.declared.design.Design.{Design};
ghost use Rattle.design_tree.specs.declared.step.Piece.{Piece as AnyPiece};
ghost use Rattle.cvd_step_laws.specs.LineMarks.{with_vars};
ghost use Rattle.cvd_step_laws.specs.StepMarks.{pieces_marks};

use crate::count::{rows_for, turns};
use crate::piece::{Shown, read_piece};
use cov_types::{NoMemory, Rows, Var};
use cvd_cursor::{Cursor, ReadFault, number};
use design_tree::Piece;
use std::alloc::Global;

/// The greatest number of nodes of the expressions of a design.
const MOST: usize = 4_194_304;

/// The greatest number of bytes that a design may display.
const MOST_SHOWN: usize = 16_777_216;

/// Displayed pieces with the number of their nodes and the most bytes that they display.
#[derive(Drop)]
pub struct Pieces {
    pub items: Rows<Piece>,
    pub nodes: usize,
    pub shown: usize,
}

/// How many pieces there are, and they; or nothing, where they may not stand together.
pub fn read_pieces(
    alloc: Global,
    cursor: &mut Cursor<'_>,
    vars: &[Var],
) -> Result<Option<Pieces>, ReadFault>
    requires few { length vars.now ≤ 2 ^ 32 }
    requires variables { All IsVariable vars.now }
    ensures { Reads counted_pieces (λ p held. PiecesIn (with_vars vars.now) p.1.items held) cursor.old result cursor.new }
{
    let count = number(cursor)?;
    let turns = turns(count, cursor.bytes_left());
    let held = more_pieces(alloc, cursor, vars, turns)?;
    Ok(held)
}

/// So many pieces.
fn more_pieces(
    alloc: Global,
    cursor: &mut Cursor<'_>,
    vars: &[Var],
    turns: u128,
) -> Result<Option<Pieces>, ReadFault>
    requires few { length vars.now ≤ 2 ^ 32 }
    requires variables { All IsVariable vars.now }
    ensures { (n bytes : ℕ) → AreTurns bytes n turns → length cursor.old.rest ≤ 2 * bytes + 1
        → Reads (pieces_marks n) (λ m held. PiecesIn (with_vars vars.now) m.items held) cursor.old result cursor.new }
{
    let items = rows_for(alloc, turns)?;
    let mut kept = Pieces {
        items,
        nodes: 0,
        shown: 0,
    };
    let mut whole = true;
    let mut left = turns;
    while left > 0 {
        let one = read_piece(alloc, cursor, vars)?;
        whole = keep(&mut kept, whole, one)?;
        left -= 1;
    }
    if whole { Ok(Some(kept)) } else { Ok(None) }
}

/// Keeps a piece behind others, where they may stand together; and says whether they may.
fn keep(kept: &mut Pieces, whole: bool, one: Option<Shown>) -> Result<bool, NoMemory>
    ensures { IfOk result (λ done. (d : Design) (ps : List AnyPiece) (p : AnyPiece) → SoFar d ps whole kept.old → PieceIn d p one → SoFar d (ps ++ p ∷ []) done
        kept.new) }
{
    if !whole {
        drop(one);
        return Ok(false);
    }
    let Some(one) = one else {
        return Ok(false);
    };
    put(kept, one)
}

fn put(kept: &mut Pieces, one: Shown) -> Result<bool, NoMemory>
    ensures { IfOk result (λ done. (d : Design) (ps : List AnyPiece) (p : AnyPiece) → AreShown d ps kept.old → IsShown d p one → SoFar d (ps ++ p ∷ []) done
        kept.new) }
{
    let nodes = kept.nodes.saturating_add(one.nodes);
    let shown = kept.shown.saturating_add(one.shown);
    if !are_within(nodes, shown) {
        drop(one);
        return Ok(false);
    }
    kept.items.push(one.piece)?;
    kept.nodes = nodes;
    kept.shown = shown;
    Ok(true)
}

fn are_within(nodes: usize, shown: usize) -> bool
    ensures { result ≡ (nat_le nodes 4194304 && nat_le shown 16777216) }
{
    nodes <= MOST && shown <= MOST_SHOWN
}
