ghost use Rattle.flat_expressions.specs.Copies.{Makes};

use crate::fault::CopyFault;
use elab_types::{FlatExpr, FlatSelect};
use sqlite_items::{Boxed, Items};
use std::alloc::Global;
use vlog_tree::{BinaryOp, SystemCall, UnaryOp};

/// A flat expression, or why there is none.
pub(crate) type Copying = Result<FlatExpr, CopyFault>;

/// A flat select, or why there is none.
pub(crate) type SelectCopying = Result<FlatSelect, CopyFault>;

pub(crate) fn made_unary(alloc: Global, op: UnaryOp, of: FlatExpr) -> Copying
    ensures { Makes (FlatExpr.Unary op of) result }
{
    let of = Boxed::new(alloc, of)?;
    Ok(FlatExpr::Unary { op, of })
}

pub(crate) fn made_call(alloc: Global, name: SystemCall, of: FlatExpr) -> Copying
    ensures { Makes (FlatExpr.Call name of) result }
{
    let of = Boxed::new(alloc, of)?;
    Ok(FlatExpr::Call { name, of })
}

pub(crate) fn made_binary(alloc: Global, op: BinaryOp, left: FlatExpr, right: FlatExpr) -> Copying
    ensures { Makes (FlatExpr.Binary op left right) result }
{
    let left = Boxed::new(alloc, left)?;
    let right = Boxed::new(alloc, right)?;
    Ok(FlatExpr::Binary { op, left, right })
}

pub(crate) fn made_choice(alloc: Global, test: FlatExpr, yes: FlatExpr, no: FlatExpr) -> Copying
    ensures { Makes (FlatExpr.Choose test yes no) result }
{
    let test = Boxed::new(alloc, test)?;
    let yes = Boxed::new(alloc, yes)?;
    let no = Boxed::new(alloc, no)?;
    Ok(FlatExpr::Choose { test, yes, no })
}

pub(crate) fn made_repeat(alloc: Global, count: FlatExpr, parts: Vec<FlatExpr>) -> Copying
    ensures { Makes (FlatExpr.Repeat count parts.items) result }
{
    let count = Boxed::new(alloc, count)?;
    Ok(FlatExpr::Repeat {
        count,
        parts: Items::from_vec(parts),
    })
}

pub(crate) fn made_select(alloc: Global, base: FlatExpr, select: FlatSelect) -> Copying
    ensures { Makes (FlatExpr.Select base select) result }
{
    let base = Boxed::new(alloc, base)?;
    Ok(FlatExpr::Select { base, select })
}

pub(crate) fn made_at(alloc: Global, at: FlatExpr) -> SelectCopying
    ensures { Makes (FlatSelect.At at) result }
{
    let at = Boxed::new(alloc, at)?;
    Ok(FlatSelect::At(at))
}

pub(crate) fn made_between(alloc: Global, high: FlatExpr, low: FlatExpr) -> SelectCopying
    ensures { Makes (FlatSelect.Between high low) result }
{
    let high = Boxed::new(alloc, high)?;
    let low = Boxed::new(alloc, low)?;
    Ok(FlatSelect::Between(high, low))
}

pub(crate) fn made_up(alloc: Global, from: FlatExpr, width: FlatExpr) -> SelectCopying
    ensures { Makes (FlatSelect.Up from width) result }
{
    let from = Boxed::new(alloc, from)?;
    let width = Boxed::new(alloc, width)?;
    Ok(FlatSelect::Up(from, width))
}

pub(crate) fn made_down(alloc: Global, from: FlatExpr, width: FlatExpr) -> SelectCopying
    ensures { Makes (FlatSelect.Down from width) result }
{
    let from = Boxed::new(alloc, from)?;
    let width = Boxed::new(alloc, width)?;
    Ok(FlatSelect::Down(from, width))
}
