ghost use Rattle.std.specs.Prelude.{◌≡◌, IfOk};

use crate::expression::{copy_expression, copy_index};
use cov_types::{ByteText, NoMemory, Rows};
use design_tree::{Piece, StepItem, Target};
use std::alloc::Global;

/// A copy of a target.
fn copy_target(alloc: Global, target: &Target) -> Result<Target, NoMemory>
    ensures { IfOk result (λ copy. copy ≡ target.now) }
{
    match target {
        Target::Whole { var } => Ok(Target::Whole { var: *var }),
        Target::Part { var, width, at } => {
            let at = copy_index(alloc, at)?;
            Ok(Target::Part {
                var: *var,
                width: *width,
                at,
            })
        }
        Target::Word { var, at } => {
            let at = copy_index(alloc, at)?;
            Ok(Target::Word { var: *var, at })
        }
        Target::WordPart {
            var,
            word,
            width,
            at,
        } => {
            let word = copy_index(alloc, word)?;
            let at = copy_index(alloc, at)?;
            Ok(Target::WordPart {
                var: *var,
                word,
                width: *width,
                at,
            })
        }
    }
}

/// A copy of the targets of an assignment.
pub fn copy_targets(alloc: Global, targets: &[Target]) -> Result<Rows<Target>, NoMemory>
    ensures { IfOk result (λ copies. copies ≡ targets.now) }
{
    let mut copies = Rows::new(alloc);
    for target in targets {
        copies.push(copy_target(alloc, target)?)?;
    }
    Ok(copies)
}

/// A copy of what a print step prints in one place.
fn copy_piece(alloc: Global, piece: &Piece) -> Result<Piece, NoMemory>
    ensures { IfOk result (λ copy. copy ≡ piece.now) }
{
    match piece {
        Piece::Text(text) => Ok(Piece::Text(ByteText::from_slice(alloc, text.as_slice())?)),
        Piece::Dec {
            signed,
            short,
            value,
        } => {
            let value = copy_expression(alloc, value)?;
            Ok(Piece::Dec {
                signed: *signed,
                short: *short,
                value,
            })
        }
        Piece::Hex { short, value } => {
            let value = copy_expression(alloc, value)?;
            Ok(Piece::Hex {
                short: *short,
                value,
            })
        }
        Piece::Bin { short, value } => {
            let value = copy_expression(alloc, value)?;
            Ok(Piece::Bin {
                short: *short,
                value,
            })
        }
    }
}

/// A copy of what a print step prints.
pub fn copy_pieces(alloc: Global, pieces: &[Piece]) -> Result<Rows<Piece>, NoMemory>
    ensures { IfOk result (λ copies. copies ≡ pieces.now) }
{
    let mut copies = Rows::new(alloc);
    for piece in pieces {
        copies.push(copy_piece(alloc, piece)?)?;
    }
    Ok(copies)
}

/// A copy of the items of an arm of a `case`.
pub fn copy_items(alloc: Global, items: &[StepItem]) -> Result<Rows<StepItem>, NoMemory>
    ensures { IfOk result (λ copies. copies ≡ items.now) }
{
    let mut copies = Rows::new(alloc);
    for item in items {
        let value = copy_expression(alloc, &item.value)?;
        copies.push(StepItem {
            mask: item.mask,
            value,
        })?;
    }
    Ok(copies)
}
