ghost use Rattle.std.specs.Prelude.{◌≡◌, ◌==◌, IfOk};
ghost use Rattle.std.specs.List.{list_any};
ghost use Rattle.design_meaning.specs.Spans.{is_in_any, reads_of};
ghost use Rattle.design_meaning.specs.Targets.{var_named, names_bit, target_reads};
ghost use Rattle.design_meaning.specs.Paths.{piece_reads, item_reads};
ghost use Rattle.flow_spans.specs.Reads.{AreKnown, Adds};
ghost use Rattle.flow_spans.specs.Aims.{IsTargetIn};
ghost use Rattle.flow_uses.specs.Gathers.{AddsNamed, AreTargetsIn, ArePiecesIn, IsPieceIn, AreItemsIn};

use cov_types::{NoMemory, Var};
use design_state::State;
use design_tree::{Piece, StepItem, Target};
use flow_spans::{Span, expression_reads, target_aim};

/// The spans that are gathered of steps: what they read, what they write at once and what they write later.
#[derive(Drop)]
pub(crate) struct Lists {
    pub(crate) reads: Vec<Span>,
    pub(crate) sets: Vec<Span>,
    pub(crate) defers: Vec<Span>,
}

/// Puts the spans that the positions of a target read, and the one that it names, behind those that are there.
fn add_target(
    target: &Target,
    vars: &[Var],
    state: &State,
    reads: &mut Vec<Span>,
    named: &mut Vec<Span>,
) -> Result<(), NoMemory>
    requires known { AreKnown vars.now state.now }
    requires target { IsTargetIn state.now target.now }
    ensures reads { IfOk result (λ _. Adds vars.now reads.old.items reads.new.items (λ b. is_in_any b (target_reads target.now))) }
    ensures named { IfOk result (λ _. AddsNamed vars.now named.old.items named.new.items (λ b. names_bit b target.now) (λ v. var_named target.now == v)) }
{
    let aim = target_aim(target, vars, state, reads)?;
    named.push(aim.span)?;
    Ok(())
}

/// The same of several targets.
pub(crate) fn add_targets(
    targets: &[Target],
    vars: &[Var],
    state: &State,
    reads: &mut Vec<Span>,
    named: &mut Vec<Span>,
) -> Result<(), NoMemory>
    requires known { AreKnown vars.now state.now }
    requires targets { AreTargetsIn state.now targets.now }
    ensures reads { IfOk result (λ _. Adds vars.now reads.old.items reads.new.items (λ b. list_any (λ t. is_in_any b (target_reads t)) targets.now)) }
    ensures named { IfOk result (λ _. AddsNamed vars.now named.old.items named.new.items (λ b. list_any (names_bit b) targets.now)
        (λ v. list_any (λ t. var_named t == v) targets.now)) }
{
    for target in targets {
        add_target(target, vars, state, reads, named)?;
    }
    Ok(())
}

/// Puts the spans that a piece reads behind those that are there.
fn add_piece(
    piece: &Piece,
    vars: &[Var],
    state: &State,
    reads: &mut Vec<Span>,
) -> Result<(), NoMemory>
    requires known { AreKnown vars.now state.now }
    requires piece { IsPieceIn state.now piece.now }
    ensures { IfOk result (λ _. Adds vars.now reads.old.items reads.new.items (λ b. is_in_any b (piece_reads piece.now))) }
{
    match piece {
        Piece::Text(_) => return Ok(()),
        Piece::Dec {
            signed: _,
            short: _,
            value,
        } => return expression_reads(value, vars, state, reads),
        Piece::Hex { short: _, value } => return expression_reads(value, vars, state, reads),
        Piece::Bin { short: _, value } => return expression_reads(value, vars, state, reads),
    }
}

/// The same of several pieces.
pub(crate) fn add_pieces(
    pieces: &[Piece],
    vars: &[Var],
    state: &State,
    reads: &mut Vec<Span>,
) -> Result<(), NoMemory>
    requires known { AreKnown vars.now state.now }
    requires pieces { ArePiecesIn state.now pieces.now }
    ensures { IfOk result (λ _. Adds vars.now reads.old.items reads.new.items (λ b. list_any (λ p. is_in_any b (piece_reads p)) pieces.now)) }
{
    for piece in pieces {
        add_piece(piece, vars, state, reads)?;
    }
    Ok(())
}

/// Puts the spans that the items of an arm read behind those that are there.
pub(crate) fn add_items(
    items: &[StepItem],
    vars: &[Var],
    state: &State,
    reads: &mut Vec<Span>,
) -> Result<(), NoMemory>
    requires known { AreKnown vars.now state.now }
    requires items { AreItemsIn state.now items.now }
    ensures { IfOk result (λ _. Adds vars.now reads.old.items reads.new.items (λ b. list_any (λ item. is_in_any b (item_reads item)) items.now)) }
{
    for item in items {
        expression_reads(&item.value, vars, state, reads)?;
    }
    Ok(())
}
