ghost use Rattle.std.specs.Prelude.{◌≡◌, IfOk, false};
ghost use Rattle.std.specs.List.{list_any};
ghost use Rattle.design_state.specs.InDesign.{IsTypedIn};
ghost use Rattle.design_meaning.specs.Spans.{is_in_any, reads_of};
ghost use Rattle.design_meaning.specs.Targets.{target_reads};
ghost use Rattle.design_meaning.specs.Paths.{assign_reads, piece_reads, item_reads};
ghost use Rattle.flow_spans.specs.Reads.{AreKnown, Adds};
ghost use Rattle.flow_uses.specs.Gathers.{AreTargetsIn, ArePiecesIn, IsPieceIn, AreItemsIn, AreArmsIn};
ghost use Rattle.flow_paths.specs.Walking.{IsReady, Passes};

use crate::walk::{Walk, note};
use cov_types::{NoMemory, Var};
use design_state::State;
use design_tree::{Piece, StepArm, StepItem, Target, Typed};
use flow_spans::{Span, expression_reads, target_aim};
use std::alloc::Global;

/// Notes what an expression reads.
pub(crate) fn read_expression(
    alloc: Global,
    e: &Typed,
    vars: &[Var],
    state: &State,
    walk: &mut Walk,
) -> Result<(), NoMemory>
    requires known { AreKnown vars.now state.now }
    requires typed { IsTypedIn state.now e.now }
    requires ready { IsReady vars.now walk.old }
    ensures { IfOk result (λ _. Passes walk.old walk.new (λ b. false) (λ b. is_in_any b (reads_of e.now))) }
{
    let mut spans = Vec::new(alloc);
    expression_reads(e, vars, state, &mut spans)?;
    note(walk, spans.as_slice());
    Ok(())
}

/// Puts the spans that the positions of targets read behind those that are there.
fn positions_read(
    targets: &[Target],
    vars: &[Var],
    state: &State,
    out: &mut Vec<Span>,
) -> Result<(), NoMemory>
    requires known { AreKnown vars.now state.now }
    requires targets { AreTargetsIn state.now targets.now }
    ensures { IfOk result (λ _. Adds vars.now out.old.items out.new.items (λ b. list_any (λ t. is_in_any b (target_reads t)) targets.now)) }
{
    for target in targets {
        target_aim(target, vars, state, out)?;
    }
    Ok(())
}

/// Notes what an assignment reads: its value, and the positions of its targets.
pub(crate) fn read_assignment(
    alloc: Global,
    targets: &[Target],
    value: &Typed,
    vars: &[Var],
    state: &State,
    walk: &mut Walk,
) -> Result<(), NoMemory>
    requires known { AreKnown vars.now state.now }
    requires targets { AreTargetsIn state.now targets.now }
    requires typed { IsTypedIn state.now value.now }
    requires ready { IsReady vars.now walk.old }
    ensures { IfOk result (λ _. Passes walk.old walk.new (λ b. false) (λ b. is_in_any b (assign_reads targets.now value.now))) }
{
    let mut spans = Vec::new(alloc);
    expression_reads(value, vars, state, &mut spans)?;
    positions_read(targets, vars, state, &mut spans)?;
    note(walk, spans.as_slice());
    Ok(())
}

/// Notes what a piece of text reads.
fn read_piece(
    alloc: Global,
    piece: &Piece,
    vars: &[Var],
    state: &State,
    walk: &mut Walk,
) -> Result<(), NoMemory>
    requires known { AreKnown vars.now state.now }
    requires piece { IsPieceIn state.now piece.now }
    requires ready { IsReady vars.now walk.old }
    ensures { IfOk result (λ _. Passes walk.old walk.new (λ b. false) (λ b. is_in_any b (piece_reads piece.now))) }
{
    match piece {
        Piece::Text(_) => return Ok(()),
        Piece::Dec {
            signed: _,
            short: _,
            value,
        } => return read_expression(alloc, value, vars, state, walk),
        Piece::Hex { short: _, value } => return read_expression(alloc, value, vars, state, walk),
        Piece::Bin { short: _, value } => return read_expression(alloc, value, vars, state, walk),
    }
}

/// The same of several pieces.
pub(crate) fn read_pieces(
    alloc: Global,
    pieces: &[Piece],
    vars: &[Var],
    state: &State,
    walk: &mut Walk,
) -> Result<(), NoMemory>
    requires known { AreKnown vars.now state.now }
    requires pieces { ArePiecesIn state.now pieces.now }
    requires ready { IsReady vars.now walk.old }
    ensures { IfOk result (λ _. Passes walk.old walk.new (λ b. false) (λ b. list_any (λ p. is_in_any b (piece_reads p)) pieces.now)) }
{
    for piece in pieces {
        read_piece(alloc, piece, vars, state, walk)?;
    }
    Ok(())
}

/// Notes what the items of an arm read.
fn read_items(
    alloc: Global,
    items: &[StepItem],
    vars: &[Var],
    state: &State,
    walk: &mut Walk,
) -> Result<(), NoMemory>
    requires known { AreKnown vars.now state.now }
    requires items { AreItemsIn state.now items.now }
    requires ready { IsReady vars.now walk.old }
    ensures { IfOk result (λ _. Passes walk.old walk.new (λ b. false) (λ b. list_any (λ item. is_in_any b (item_reads item)) items.now)) }
{
    for item in items {
        read_expression(alloc, &item.value, vars, state, walk)?;
    }
    Ok(())
}

/// Notes what the items of all arms read.
pub(crate) fn read_arms(
    alloc: Global,
    arms: &[StepArm],
    vars: &[Var],
    state: &State,
    walk: &mut Walk,
) -> Result<(), NoMemory>
    requires known { AreKnown vars.now state.now }
    requires arms { AreArmsIn state.now arms.now }
    requires ready { IsReady vars.now walk.old }
    ensures { IfOk result (λ _. Passes walk.old walk.new (λ b. false)
        (λ b. list_any (λ arm. list_any (λ item. is_in_any b (item_reads item)) arm.items) arms.now)) }
{
    for arm in arms {
        read_items(alloc, arm.items.as_slice(), vars, state, walk)?;
    }
    Ok(())
}
