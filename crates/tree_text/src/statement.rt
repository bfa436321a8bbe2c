//! Statements.

use crate::expression::{expr, exprs};
use crate::page::Page;
use cov_types::{ByteText, Rows};
use vlog_tree::{CaseArm, Expr, Stmt, StmtKind};

fn assignment(out: &mut Page, target: &Expr, value: &Expr) {
    expr(out, target);
    expr(out, value);
}

fn show(out: &mut Page, text: &Option<ByteText>, values: &Rows<Expr>) {
    if let Some(text) = text {
        out.put(" '");
        out.bytes(text);
        out.put("'");
    }
    exprs(out, values.as_slice());
}

/// `name from`, of the head of a loop.
pub(crate) fn bound(out: &mut Page, name: &ByteText, value: &Expr) {
    out.put(" ");
    out.bytes(name);
    expr(out, value);
}

#[cycle(statement)]
pub(crate) fn stmt(out: &mut Page, tree: &Stmt) {
    match &tree.what {
        StmtKind::Empty => out.put(" ;"),
        StmtKind::Finish => out.put(" finish"),
        StmtKind::Stop => out.put(" stop"),
        what => {
            out.put(" (");
            node(out, what);
            out.put(")");
        }
    }
}

/// What stands in the brackets of a statement.
#[cycle(statement)]
fn node(out: &mut Page, what: &StmtKind) {
    match what {
        StmtKind::Empty | StmtKind::Finish | StmtKind::Stop => {}
        StmtKind::Block { body, last } => {
            out.put("begin");
            stmts(out, body.as_slice());
            out.put(" end");
            out.place(*last);
        }
        StmtKind::If { test, yes, no } => {
            out.put("if");
            expr(out, test);
            stmt(out, yes.get());
            if let Some(no) = no {
                out.put(" else");
                stmt(out, no.get());
            }
        }
        StmtKind::Case { wild, on, arms } => {
            out.put(if *wild { "casez" } else { "case" });
            expr(out, on);
            arms_of(out, arms.as_slice());
        }
        StmtKind::For {
            name,
            from,
            test,
            step_name,
            step,
            body,
        } => {
            out.put("for");
            bound(out, name, from);
            expr(out, test);
            bound(out, step_name, step);
            stmt(out, body.get());
        }
        StmtKind::Set { target, value } => {
            out.put("set");
            assignment(out, target, value);
        }
        StmtKind::Later { target, value } => {
            out.put("later");
            assignment(out, target, value);
        }
        StmtKind::Show { text, values } => {
            out.put("show");
            show(out, text, values);
        }
    }
}

#[cycle(statement)]
fn stmts(out: &mut Page, trees: &[Stmt]) {
    for tree in trees {
        stmt(out, tree);
    }
}

#[cycle(statement)]
fn arms_of(out: &mut Page, arms: &[CaseArm]) {
    for arm in arms {
        out.put(" (arm");
        out.place(arm.place);
        exprs(out, arm.items.as_slice());
        out.put(" :");
        stmt(out, &arm.body);
        out.put(")");
    }
}
