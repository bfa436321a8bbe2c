//! Items that hold no items.

use crate::expression::{expr, exprs, range, ranged, valued};
use crate::page::Page;
use crate::statement::stmt;
use cov_types::{ByteText, Place, Rows};
use vlog_tree::{
    AssignPart, Conns, Expr, Instance, ItemKind, NamePlace, NamedConn, ParamForm, ParamName,
    RangeExpr, RegName, Stmt, WireName,
};

fn named_conns(out: &mut Page, all: &[NamedConn]) {
    for one in all {
        out.put(" .");
        out.bytes(&one.name);
        valued(out, &one.value);
    }
}

fn conns(out: &mut Page, conns: &Conns) {
    out.put(" (");
    match conns {
        Conns::Ordered(all) => exprs(out, all.as_slice()),
        Conns::Named(all) => named_conns(out, all.as_slice()),
    }
    out.put(")");
}

fn form(out: &mut Page, form: &ParamForm) {
    match form {
        ParamForm::Plain => {}
        ParamForm::Integer => out.put(" integer"),
        ParamForm::Ranged {
            signed,
            range: bounds,
        } => {
            out.signed(*signed);
            range(out, bounds.get());
        }
    }
}

/// The word of a declaration, its sign and its range.
fn declared(out: &mut Page, word: &str, signed: bool, bounds: &Option<RangeExpr>) {
    out.put(word);
    out.signed(signed);
    ranged(out, bounds);
}

fn wires(out: &mut Page, names: &[WireName]) {
    for one in names {
        out.named(&one.name);
        valued(out, &one.value);
    }
}

fn regs(out: &mut Page, names: &[RegName]) {
    for one in names {
        out.named(&one.name);
        ranged(out, &one.words);
        valued(out, &one.start);
    }
}

fn names(out: &mut Page, word: &str, names: &[NamePlace]) {
    out.put(word);
    for name in names {
        out.named(name);
    }
}

fn parameters(out: &mut Page, names: &[ParamName]) {
    for one in names {
        out.named(&one.name);
        out.put(" =");
        expr(out, &one.value);
    }
}

fn assigned(out: &mut Page, parts: &[AssignPart]) {
    out.put("assign");
    for one in parts {
        expr(out, &one.target);
        out.put(" =");
        expr(out, &one.value);
    }
}

fn always(out: &mut Page, clock: &Option<ByteText>, body: &Stmt) {
    out.put("always");
    if let Some(clock) = clock {
        out.put(" ");
        out.bytes(clock);
    }
    stmt(out, body);
}

fn cover(out: &mut Page, word: Place, label: &Option<NamePlace>, clock: &ByteText, test: &Expr) {
    out.put("cover");
    out.place(word);
    if let Some(label) = label {
        out.named(label);
    }
    out.put(" ");
    out.bytes(clock);
    expr(out, test);
}

fn instances(out: &mut Page, module: &ByteText, params: &Conns, made: &Rows<Instance>) {
    out.put("instances ");
    out.bytes(module);
    conns(out, params);
    for one in made.as_slice() {
        out.named(&one.name);
        conns(out, &one.ports);
    }
}

/// An item that holds no items, or the word that the others begin with.
pub(crate) fn plain(out: &mut Page, what: &ItemKind) {
    match what {
        ItemKind::Wire {
            signed,
            range,
            names,
        } => {
            declared(out, "wire", *signed, range);
            wires(out, names.as_slice());
        }
        ItemKind::Reg {
            signed,
            range,
            names,
        } => {
            declared(out, "reg", *signed, range);
            regs(out, names.as_slice());
        }
        ItemKind::Integer(all) => names(out, "integer", all.as_slice()),
        ItemKind::Genvar(all) => names(out, "genvar", all.as_slice()),
        ItemKind::Parameter {
            local,
            form: of,
            names,
        } => {
            out.put(if *local { "localparam" } else { "parameter" });
            form(out, of);
            parameters(out, names.as_slice());
        }
        ItemKind::Assign(parts) => assigned(out, parts.as_slice()),
        ItemKind::Initial(body) => {
            out.put("initial");
            stmt(out, body);
        }
        ItemKind::Always { clock, body } => always(out, clock, body),
        ItemKind::Cover {
            word,
            label,
            clock,
            test,
        } => cover(out, *word, label, clock, test),
        ItemKind::Instances {
            module,
            params,
            made,
        } => instances(out, module, params, made),
        ItemKind::Generate(_) => out.put("generate"),
        ItemKind::Loop { .. } => out.put("loop"),
        ItemKind::Choose { .. } => out.put("choose"),
    }
}
