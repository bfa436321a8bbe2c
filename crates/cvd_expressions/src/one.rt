//! Nodes of no operand and of one.

ghost use Rattle.std.specs.Prelude.{◌≡◌, IfOk, true};
ghost use Rattle.std.specs.List.{slice_get};
ghost use Rattle.design_meaning.specs.Sizes as sizes;
ghost use Rattle.design_meaning.specs.Widths.{width_of};
ghost use Rattle.design_meaning.specs.WellTyped as typed;
ghost use Rattle.design_tree.specs.declared.design.Design.{Design};
ghost use Rattle.design_tree.specs.declared.typed.Typed.TheVariants as e;
ghost use Rattle.cvd_nodes.specs.Trees.{index};
ghost use Rattle.cvd_expressions.specs.Builds.{Builds, IsBuilt};

use crate::built::Built;
use crate::test::{is_width, may_be_number, may_cut, may_extend, unary_width};
use cov_types::Var;
use design_tree::{Index, Typed, TypedUnary};
use sqlite_items::{Boxed, at};
use std::alloc::{AllocError, Global};

/// The greatest depth of an expression.
const MOST: u16 = 2_000;

/// An expression, unless it is too deep.
pub(crate) fn finished(
    alloc: Global,
    tree: Typed,
    width: u8,
    depth: u16,
) -> Result<Option<Built>, AllocError>
    ensures { IfOk result (λ held. (d : Design) → typed.is_typed d tree ≡ true → width ≡ width_of d tree → depth ≡ sizes.depth tree → Builds d tree held) }
{
    let tree = Boxed::new(alloc, tree)?;
    if depth > MOST {
        return Ok(None);
    }
    Ok(Some(Built { tree, width, depth }))
}

pub(crate) fn number(alloc: Global, width: u8, value: u128) -> Result<Option<Built>, AllocError>
    ensures { IfOk result (λ held. (d : Design) → Builds d (e.Number width value) held) }
{
    if !may_be_number(width, value) {
        return Ok(None);
    }
    finished(alloc, Typed::Number { width, value }, width, 1)
}

pub(crate) fn variable(alloc: Global, vars: &[Var], var: u32) -> Result<Option<Built>, AllocError>
    ensures { IfOk result (λ held. (d : Design) → d.vars ≡ vars.now → Builds d (e.Var var) held) }
{
    let Some(found) = variable_at(vars, var) else {
        return Ok(None);
    };
    if found.words != 1 {
        return Ok(None);
    }
    finished(alloc, Typed::Var { var }, found.width, 1)
}

/// The variable of a number.
pub(crate) fn variable_at(vars: &[Var], var: u32) -> Option<Var>
    ensures { result ≡ slice_get vars.now var }
{
    match at(vars, var as usize) {
        Some(found) => Some(*found),
        None => None,
    }
}

pub(crate) fn word(
    alloc: Global,
    vars: &[Var],
    var: u32,
    low: u32,
    signed: bool,
    of: Built,
) -> Result<Option<Built>, AllocError>
    ensures { IfOk result (λ held. (d : Design) → d.vars ≡ vars.now → IsBuilt d of → Builds d (e.Word var (index low signed of.tree)) held) }
{
    let Some(found) = variable_at(vars, var) else {
        return Ok(None);
    };
    let Built {
        tree: value,
        width: _,
        depth,
    } = of;
    let at = Index { low, signed, value };
    finished(alloc, Typed::Word { var, at }, found.width, depth + 1)
}

pub(crate) fn zeros(alloc: Global, width: u8, of: Built) -> Result<Option<Built>, AllocError>
    ensures { IfOk result (λ held. (d : Design) → IsBuilt d of → Builds d (e.ZeroExtend width of.tree) held) }
{
    if !may_extend(width, of.width) {
        return Ok(None);
    }
    let Built {
        tree: of,
        width: _,
        depth,
    } = of;
    finished(alloc, Typed::ZeroExtend { width, of }, width, depth + 1)
}

pub(crate) fn signs(alloc: Global, width: u8, of: Built) -> Result<Option<Built>, AllocError>
    ensures { IfOk result (λ held. (d : Design) → IsBuilt d of → Builds d (e.SignExtend width of.tree) held) }
{
    if !may_extend(width, of.width) {
        return Ok(None);
    }
    let Built {
        tree: of,
        width: _,
        depth,
    } = of;
    finished(alloc, Typed::SignExtend { width, of }, width, depth + 1)
}

pub(crate) fn cut(alloc: Global, width: u8, of: Built) -> Result<Option<Built>, AllocError>
    ensures { IfOk result (λ held. (d : Design) → IsBuilt d of → Builds d (e.Truncate width of.tree) held) }
{
    if !may_cut(width, of.width) {
        return Ok(None);
    }
    let Built {
        tree: of,
        width: _,
        depth,
    } = of;
    finished(alloc, Typed::Truncate { width, of }, width, depth + 1)
}

pub(crate) fn unary(alloc: Global, op: TypedUnary, of: Built) -> Result<Option<Built>, AllocError>
    ensures { IfOk result (λ held. (d : Design) → IsBuilt d of → Builds d (e.Unary op of.tree) held) }
{
    let Built {
        tree: of,
        width,
        depth,
    } = of;
    finished(
        alloc,
        Typed::Unary { op, of },
        unary_width(op, width),
        depth + 1,
    )
}

pub(crate) fn repeats(alloc: Global, count: u8, of: Built) -> Result<Option<Built>, AllocError>
    ensures { IfOk result (λ held. (d : Design) → IsBuilt d of → Builds d (e.Repeat count of.tree) held) }
{
    let width = count as u16 * of.width as u16;
    if !is_width(width) {
        return Ok(None);
    }
    let Built {
        tree: of,
        width: _,
        depth,
    } = of;
    finished(alloc, Typed::Repeat { count, of }, width as u8, depth + 1)
}
