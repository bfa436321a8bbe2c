//! The items of arms.

ghost use Rattle.std.specs.Prelude.{◌≡◌, ◌≤◌, ◌^◌, ◌*◌, ◌+◌, ◌==◌, ℕ, length, nat_lt, true};
ghost use Rattle.cvd_cursor.specs.Reads.{Reads};
ghost use Rattle.cvd_step_laws.specs.StepMarks.{behind_items, item_marks, items_marks};
ghost use Rattle.cvd_steps.specs.Bodies.{AreItems, IsItem, around_of, load_of};
ghost use Rattle.cvd_targets.specs.Lists.{AreTurns};
ghost use Rattle.cvd_text.specs.Lines.{is_within};

use crate::process::Process;
use crate::sums::{Own, Sums, both, close, refuse};
use cov_types::{Rows, Var};
use cvd_cursor::{Cursor, ReadFault, expect, hex};
use cvd_expressions::{Expression, read_expression};
use cvd_targets::rows_for;
use design_tree::StepItem;
use std::alloc::Global;

/// An item, and what the lines up to it add up to.
#[derive(Drop)]
pub(crate) struct ReadItem {
    pub(crate) item: StepItem,
    pub(crate) sums: Sums,
}

/// Items, and what the lines up to the last of them add up to.
#[derive(Drop)]
pub(crate) struct Items {
    pub(crate) items: Rows<StepItem>,
    pub(crate) sums: Sums,
}

/// So many items of a case of this width.
pub(crate) fn read_items(
    alloc: Global,
    cursor: &mut Cursor<'_>,
    vars: &[Var],
    process: Process,
    width: u8,
    turns: u128,
    sums: Sums,
) -> Result<Items, ReadFault>
    requires few { length vars.now ≤ 2 ^ 32 }
    requires narrow { width ≤ 128 }
    requires sums { is_within (load_of sums) ≡ true }
    ensures { (n bytes : ℕ) → AreTurns bytes n turns → length cursor.old.rest ≤ 2 * bytes + 1
        → Reads (items_marks (around_of vars.now process) width (load_of sums) n)
        (λ m held. AreItems (behind_items (around_of vars.now process) width (load_of sums) m.items) m.items held) cursor.old result cursor.new }
{
    let mut items = rows_for(alloc, turns)?;
    let mut sums = sums;
    let mut left = turns;
    while left > 0 {
        let next = read_item(alloc, cursor, vars, process, width, sums)?;
        sums = next.sums;
        items.push(next.item)?;
        left -= 1;
    }
    Ok(Items { items, sums })
}

/// An item of a case of this width.
fn read_item(
    alloc: Global,
    cursor: &mut Cursor<'_>,
    vars: &[Var],
    process: Process,
    width: u8,
    sums: Sums,
) -> Result<ReadItem, ReadFault>
    requires few { length vars.now ≤ 2 ^ 32 }
    requires narrow { width ≤ 128 }
    ensures { Reads (item_marks (around_of vars.now process) width (load_of sums)) (IsItem (around_of vars.now process) width (load_of sums)) cursor.old result
        cursor.new }
{
    expect(cursor, b"item")?;
    let mask = hex(cursor)?;
    let value = read_expression(alloc, cursor, vars)?;
    let Some(mask) = mask else {
        return Err(refuse(cursor));
    };
    let Some(value) = value else {
        return Err(refuse(cursor));
    };
    let Expression {
        tree,
        width: wide,
        nodes,
    } = value;
    let own = Own {
        steps: 0,
        nodes,
        shown: 0,
    };
    let holds = both(wide == width, fits(width, mask));
    let sums = close(cursor, holds, sums, own)?;
    let item = StepItem {
        mask,
        value: tree.into_inner(),
    };
    Ok(ReadItem { item, sums })
}

/// Whether a number fits a width.
fn fits(width: u8, value: u128) -> bool
    ensures { result ≡ nat_lt value (2 ^ width) }
{
    if width >= 128 {
        return true;
    }
    value < 1u128 << width
}
