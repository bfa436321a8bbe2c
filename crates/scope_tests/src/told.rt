//! Scopes and faults, as they are printed.

use anyhow::anyhow;
use cov_types::ByteText;
use elab_types::{Constant, ElabFault, Scope, ScopeItem, ScopeTree};
use std::alloc::Global;
use std::fmt::Write;

/// A fault and its place or limit.
fn fault_told(alloc: Global, fault: ElabFault) -> anyhow::Result<String> {
    let place = match fault {
        ElabFault::Duplicate(place) => place,
        ElabFault::NoTop(place) => place,
        ElabFault::NotConstant(place) => place,
        ElabFault::BadSelect(place) => place,
        ElabFault::BadRange(place) => place,
        ElabFault::WidthPast128(place) => place,
        ElabFault::BadGenvar(place) => place,
        ElabFault::UnknownModule(place) => place,
        ElabFault::BadOverride(place) => place,
        ElabFault::Recursive(place) => place,
        ElabFault::Limit(name) => return Ok(format!(in alloc; "{fault} {name:?}")?),
        ElabFault::NoMemory => return Err(anyhow!("no memory")),
    };
    Ok(format!(in alloc; "{fault} {}:{}:{}", place.file, place.line, place.column)?)
}

fn put_text(out: &mut String, text: &ByteText) -> anyhow::Result<()> {
    for byte in text.as_slice() {
        out.push(char::from(*byte))?;
    }
    Ok(())
}

/// ` NAME=WIDTH'[s]hBITS`
fn put_constant(out: &mut String, constant: &Constant) -> anyhow::Result<()> {
    out.push(' ')?;
    put_text(out, &constant.name)?;
    let sign = if constant.signed { "s" } else { "" };
    write!(
        out,
        "={}'{sign}h{:x}",
        constant.value.width, constant.value.bits
    )?;
    Ok(())
}

/// ` ITEM` or ` ITEM>SCOPE`
fn put_item(out: &mut String, item: &ScopeItem) -> anyhow::Result<()> {
    match item.scope {
        Some(scope) => write!(out, " {}>{scope}", item.item)?,
        None => write!(out, " {}", item.item)?,
    }
    Ok(())
}

/// `PATH in PARENT: MODULE TEXT; CONSTANTS; ITEMS`
fn put_scope(out: &mut String, scope: &Scope) -> anyhow::Result<()> {
    put_text(out, &scope.path)?;
    if let Some(parent) = scope.parent {
        write!(out, " in {parent}")?;
    }
    write!(out, ": {} ", scope.module)?;
    put_text(out, &scope.module_text)?;
    out.push(';')?;
    for constant in scope.constants.as_slice() {
        put_constant(out, constant)?;
    }
    out.push(';')?;
    for item in scope.items.as_slice() {
        put_item(out, item)?;
    }
    Ok(())
}

/// The scopes, one a line, or their fault.
pub(crate) fn answer_told(
    alloc: Global,
    answer: Result<ScopeTree, ElabFault>,
) -> anyhow::Result<String> {
    let tree = match answer {
        Ok(tree) => tree,
        Err(fault) => return fault_told(alloc, fault),
    };
    let mut out = String::new(alloc);
    for scope in tree.scopes.as_slice() {
        put_scope(&mut out, scope)?;
        out.push('\n')?;
    }
    Ok(out)
}

/// How many scopes there are, and the last of them, or their fault.
pub(crate) fn size_told(
    alloc: Global,
    answer: Result<ScopeTree, ElabFault>,
) -> anyhow::Result<String> {
    let tree = match answer {
        Ok(tree) => tree,
        Err(fault) => return fault_told(alloc, fault),
    };
    let mut out = format!(in alloc; "{} scopes, ", tree.scopes.len())?;
    if let Some(last) = tree.scopes.as_slice().last() {
        put_scope(&mut out, last)?;
    }
    Ok(out)
}
