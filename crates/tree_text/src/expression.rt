//! Expressions.

use crate::page::Page;
use vlog_tree::{Expr, RangeExpr, Select};

fn number(out: &mut Page, width: u8, signed: bool, value: u128, free: u128) {
    if width == 32 && signed && free == 0 {
        out.number(value);
        return;
    }
    out.number(u128::from(width));
    out.put("'");
    out.number(value);
    out.signed(signed);
    if free != 0 {
        out.put("?");
        out.number(free);
    }
}

#[cycle(expression)]
pub(crate) fn expr(out: &mut Page, tree: &Expr) {
    out.put(" ");
    match tree {
        Expr::Number {
            width,
            signed,
            value,
            free,
        } => number(out, *width, *signed, *value, *free),
        Expr::Name(name) => out.bytes(name),
        _ => {
            out.put("(");
            node(out, tree);
            out.put(")");
        }
    }
}

/// What stands in the brackets of a node.
#[cycle(expression)]
fn node(out: &mut Page, tree: &Expr) {
    match tree {
        Expr::Number { .. } | Expr::Name(_) => {}
        Expr::Select { base, select } => {
            out.put("part");
            expr(out, base.get());
            part(out, select);
        }
        Expr::Unary { op, of } => {
            out.word(op);
            expr(out, of.get());
        }
        Expr::Binary { op, left, right } => {
            out.word(op);
            expr(out, left.get());
            expr(out, right.get());
        }
        Expr::Choose { test, yes, no } => {
            out.put("choose");
            expr(out, test.get());
            expr(out, yes.get());
            expr(out, no.get());
        }
        Expr::Join(parts) => {
            out.put("join");
            exprs(out, parts.as_slice());
        }
        Expr::Repeat { count, parts } => {
            out.put("repeat");
            expr(out, count.get());
            exprs(out, parts.as_slice());
        }
        Expr::Call { name, of } => {
            out.word(name);
            expr(out, of.get());
        }
    }
}

#[cycle(expression)]
pub(crate) fn exprs(out: &mut Page, trees: &[Expr]) {
    for tree in trees {
        expr(out, tree);
    }
}

#[cycle(expression)]
fn part(out: &mut Page, select: &Select) {
    match select {
        Select::At(at) => expr(out, at.get()),
        Select::Between(high, low) => {
            expr(out, high.get());
            out.put(" :");
            expr(out, low.get());
        }
        Select::Up(lowest, width) => {
            expr(out, lowest.get());
            out.put(" +:");
            expr(out, width.get());
        }
        Select::Down(highest, width) => {
            expr(out, highest.get());
            out.put(" -:");
            expr(out, width.get());
        }
    }
}

pub(crate) fn range(out: &mut Page, range: &RangeExpr) {
    out.put(" [");
    expr(out, &range.high);
    out.put(" :");
    expr(out, &range.low);
    out.put("]");
}

pub(crate) fn ranged(out: &mut Page, bounds: &Option<RangeExpr>) {
    if let Some(bounds) = bounds {
        range(out, bounds);
    }
}

/// ` = value`, where there is one.
pub(crate) fn valued(out: &mut Page, value: &Option<Expr>) {
    if let Some(value) = value {
        out.put(" =");
        expr(out, value);
    }
}
