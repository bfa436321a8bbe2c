ghost use Rattle.std.specs.Prelude.{◌≡◌, IfOk, List};
ghost use Rattle.vlog_tree.specs.declared.expression.Expr.TheVariants as s;
ghost use Rattle.elab_types.specs.declared.flat_expression.FlatExpr.{FlatExpr};
ghost use Rattle.elab_types.specs.declared.flat_expression.FlatExpr.TheVariants as e;
ghost use Rattle.flat_constants.specs.Copies.{IsCopy, AreCopies};

use cov_types::ByteText;
use elab_types::FlatExpr;
use sqlite_items::{Boxed, Items};
use std::alloc::{AllocError, Global};
use vlog_tree::{BinaryOp, Expr, SystemCall, UnaryOp};

/// A copied expression.
type Copied = Result<Expr, AllocError>;

/// Copied parts of braces.
type Parts = Result<Items<Expr>, AllocError>;

fn unary(alloc: Global, op: UnaryOp, of: Copied) -> Copied
    ensures { (a : FlatExpr) → IsCopy a of → IsCopy (e.Unary op a) result }
{
    let operand = of?;
    let of = Boxed::new(alloc, operand)?;
    Ok(Expr::Unary { op, of })
}

fn binary(alloc: Global, op: BinaryOp, left: Copied, right: Copied) -> Copied
    ensures { (a b : FlatExpr) → IsCopy a left → IsCopy b right → IsCopy (e.Binary op a b) result }
{
    let first = left?;
    let second = right?;
    let left = Boxed::new(alloc, first)?;
    let right = Boxed::new(alloc, second)?;
    Ok(Expr::Binary { op, left, right })
}

fn choice(alloc: Global, test: Expr, yes: Expr, no: Expr) -> Copied
    ensures { IfOk result (λ y. y ≡ s.Choose test yes no) }
{
    let test = Boxed::new(alloc, test)?;
    let yes = Boxed::new(alloc, yes)?;
    let no = Boxed::new(alloc, no)?;
    Ok(Expr::Choose { test, yes, no })
}

fn choose(alloc: Global, test: Copied, yes: Copied, no: Copied) -> Copied
    ensures { (t a b : FlatExpr) → IsCopy t test → IsCopy a yes → IsCopy b no → IsCopy (e.Choose t a b) result }
{
    let on = test?;
    let first = yes?;
    let second = no?;
    choice(alloc, on, first, second)
}

fn join(parts: Parts) -> Copied
    ensures { (ps : List FlatExpr) → AreCopies ps parts → IsCopy (e.Join ps) result }
{
    let all = parts?;
    Ok(Expr::Join(all))
}

fn repeat(alloc: Global, count: Copied, parts: Parts) -> Copied
    ensures { (n : FlatExpr) (ps : List FlatExpr) → IsCopy n count → AreCopies ps parts → IsCopy (e.Repeat n ps) result }
{
    let times = count?;
    let parts = parts?;
    let count = Boxed::new(alloc, times)?;
    Ok(Expr::Repeat { count, parts })
}

fn call(alloc: Global, name: SystemCall, of: Copied) -> Copied
    ensures { (a : FlatExpr) → IsCopy a of → IsCopy (e.Call name a) result }
{
    let operand = of?;
    let of = Boxed::new(alloc, operand)?;
    Ok(Expr::Call { name, of })
}

/// The source expression of the same form. A variable, and a part of one, is a name that stands for nothing.
#[cycle(copy)]
pub(crate) fn copy(alloc: Global, expr: &FlatExpr) -> Copied
    ensures { IsCopy expr.now result }
{
    match expr {
        FlatExpr::Number {
            width,
            signed,
            value,
            free,
        } => {
            return Ok(Expr::Number {
                width: *width,
                signed: *signed,
                value: *value,
                free: *free,
            });
        }
        FlatExpr::Var(_) => return Ok(Expr::Name(ByteText::new(alloc))),
        FlatExpr::Select { base: _, select: _ } => return Ok(Expr::Name(ByteText::new(alloc))),
        FlatExpr::Unary { op, of } => return unary(alloc, *op, copy(alloc, of.get())),
        FlatExpr::Binary { op, left, right } => {
            return binary(
                alloc,
                *op,
                copy(alloc, left.get()),
                copy(alloc, right.get()),
            );
        }
        FlatExpr::Choose { test, yes, no } => {
            return choose(
                alloc,
                copy(alloc, test.get()),
                copy(alloc, yes.get()),
                copy(alloc, no.get()),
            );
        }
        FlatExpr::Join(parts) => return join(copy_parts(alloc, parts.as_slice())),
        FlatExpr::Repeat { count, parts } => {
            return repeat(
                alloc,
                copy(alloc, count.get()),
                copy_parts(alloc, parts.as_slice()),
            );
        }
        FlatExpr::Call { name, of } => return call(alloc, *name, copy(alloc, of.get())),
    }
}

#[cycle(copy)]
fn copy_parts(alloc: Global, parts: &[FlatExpr]) -> Parts
    ensures { AreCopies parts.now result }
{
    let mut all = Items::new(alloc);
    for part in parts {
        let copied = copy(alloc, part)?;
        all.push(copied)?;
    }
    Ok(all)
}
