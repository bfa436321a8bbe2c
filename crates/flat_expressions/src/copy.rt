ghost use Rattle.std.specs.List.{flat_map};
ghost use Rattle.flat_meaning.specs.FlatForm.{IsFlat, IsFlatSelect, AreFlat};
ghost use Rattle.flat_source_meaning.specs.Names.{names_in};
ghost use Rattle.flat_uses.specs.SelectNames.{names_of_select};
ghost use Rattle.flat_expressions.specs.Copies.{Copied, lacks};

use crate::made::{Copying, SelectCopying};
use crate::node::{
    Parts, at, between, binary, call, choice, down, join, name, repeat, select, unary, up, with,
};
use crate::resolved::Resolves;
use elab_types::FlatExpr;
use std::alloc::Global;
use vlog_tree::{Expr, Select};

/// The flat form of an expression: each name is the number of a variable or the value of a constant.
///
/// `Unknown` where a name in it stands for nothing.
#[cycle(copied)]
pub fn flat_expression<N: Resolves>(alloc: Global, names: &N, of: &Expr) -> Copying
    ensures { Copied (IsFlat (N.vars names.now) (N.environment names.now) of.now) (lacks (N.environment names.now) (names_in of.now)) result }
{
    match of {
        Expr::Number {
            width,
            signed,
            value,
            free,
        } => {
            return Ok(FlatExpr::Number {
                width: *width,
                signed: *signed,
                value: *value,
                free: *free,
            });
        }
        Expr::Name(of) => return name(names, of.as_slice()),
        Expr::Select { base, select: part } => {
            return select(
                alloc,
                flat_expression(alloc, names, base.get()),
                flat_select(alloc, names, part),
            );
        }
        Expr::Unary { op, of } => {
            return unary(alloc, *op, flat_expression(alloc, names, of.get()));
        }
        Expr::Binary { op, left, right } => {
            return binary(
                alloc,
                *op,
                flat_expression(alloc, names, left.get()),
                flat_expression(alloc, names, right.get()),
            );
        }
        Expr::Choose { test, yes, no } => {
            return choice(
                alloc,
                flat_expression(alloc, names, test.get()),
                flat_expression(alloc, names, yes.get()),
                flat_expression(alloc, names, no.get()),
            );
        }
        Expr::Join(parts) => return join(flat_parts(alloc, names, parts.as_slice())),
        Expr::Repeat { count, parts } => {
            return repeat(
                alloc,
                flat_expression(alloc, names, count.get()),
                flat_parts(alloc, names, parts.as_slice()),
            );
        }
        Expr::Call { name: of_call, of } => {
            return call(alloc, *of_call, flat_expression(alloc, names, of.get()));
        }
    }
}

#[cycle(copied)]
fn flat_select<N: Resolves>(alloc: Global, names: &N, part: &Select) -> SelectCopying
    ensures { Copied (IsFlatSelect (N.vars names.now) (N.environment names.now) part.now)
        (lacks (N.environment names.now) (names_of_select part.now)) result }
{
    match part {
        Select::At(position) => {
            return at(alloc, flat_expression(alloc, names, position.get()));
        }
        Select::Between(high, low) => {
            return between(
                alloc,
                flat_expression(alloc, names, high.get()),
                flat_expression(alloc, names, low.get()),
            );
        }
        Select::Up(from, width) => {
            return up(
                alloc,
                flat_expression(alloc, names, from.get()),
                flat_expression(alloc, names, width.get()),
            );
        }
        Select::Down(from, width) => {
            return down(
                alloc,
                flat_expression(alloc, names, from.get()),
                flat_expression(alloc, names, width.get()),
            );
        }
    }
}

#[cycle(copied)]
fn flat_parts<N: Resolves>(alloc: Global, names: &N, parts: &[Expr]) -> Parts
    ensures { Copied (λ v. AreFlat (N.vars names.now) (N.environment names.now) parts.now v.items)
        (lacks (N.environment names.now) (flat_map names_in parts.now)) result }
{
    let mut all = Ok(Vec::new(alloc));
    for part in parts {
        all = with(all, flat_expression(alloc, names, part));
    }
    all
}

/// The flat forms of some expressions, one by one.
pub fn flat_expressions<N: Resolves>(alloc: Global, names: &N, of: &[Expr]) -> Parts
    ensures { Copied (λ v. AreFlat (N.vars names.now) (N.environment names.now) of.now v.items)
        (lacks (N.environment names.now) (flat_map names_in of.now)) result }
{
    flat_parts(alloc, names, of)
}
