//! Nodes of two operands and of three.

ghost use Rattle.std.specs.Prelude.{◌≡◌, ◌≤◌, ◌+◌, max, IfOk};
ghost use Rattle.design_tree.specs.declared.design.Design.{Design};
ghost use Rattle.design_tree.specs.declared.typed.Typed.TheVariants as e;
ghost use Rattle.cvd_nodes.specs.Trees.{index};
ghost use Rattle.cvd_expressions.specs.Builds.{Builds, IsBuilt};

use crate::built::Built;
use crate::one::finished;
use crate::test::{binary_width, is_width, may_choose, may_meet};
use design_tree::{Index, Typed, TypedBinary};
use std::alloc::{AllocError, Global};

pub(crate) fn part(
    alloc: Global,
    width: u8,
    low: u32,
    signed: bool,
    of: Built,
    value: Built,
) -> Result<Option<Built>, AllocError>
    ensures { IfOk result (λ held. (d : Design) → IsBuilt d of → IsBuilt d value → Builds d (e.Part width of.tree (index low signed value.tree)) held) }
{
    if !is_width(width as u16) {
        return Ok(None);
    }
    let Built {
        tree: of,
        width: _,
        depth: first,
    } = of;
    let Built {
        tree: value,
        width: _,
        depth: second,
    } = value;
    let at = Index { low, signed, value };
    finished(
        alloc,
        Typed::Part { width, of, at },
        width,
        above(first, second),
    )
}

pub(crate) fn binary(
    alloc: Global,
    op: TypedBinary,
    left: Built,
    right: Built,
) -> Result<Option<Built>, AllocError>
    ensures { IfOk result (λ held. (d : Design) → IsBuilt d left → IsBuilt d right → Builds d (e.Binary op left.tree right.tree) held) }
{
    if !may_meet(op, left.width, right.width) {
        return Ok(None);
    }
    let Built {
        tree: left,
        width,
        depth: first,
    } = left;
    let Built {
        tree: right,
        width: _,
        depth: second,
    } = right;
    finished(
        alloc,
        Typed::Binary { op, left, right },
        binary_width(op, width),
        above(first, second),
    )
}

pub(crate) fn join(alloc: Global, high: Built, low: Built) -> Result<Option<Built>, AllocError>
    ensures { IfOk result (λ held. (d : Design) → IsBuilt d high → IsBuilt d low → Builds d (e.Join high.tree low.tree) held) }
{
    let width = high.width as u16 + low.width as u16;
    if !is_width(width) {
        return Ok(None);
    }
    let Built {
        tree: high,
        width: _,
        depth: first,
    } = high;
    let Built {
        tree: low,
        width: _,
        depth: second,
    } = low;
    finished(
        alloc,
        Typed::Join { high, low },
        width as u8,
        above(first, second),
    )
}

pub(crate) fn choice(
    alloc: Global,
    test: Built,
    yes: Built,
    no: Built,
) -> Result<Option<Built>, AllocError>
    ensures { IfOk result (λ held. (d : Design) → IsBuilt d test → IsBuilt d yes → IsBuilt d no → Builds d (e.Choose test.tree yes.tree no.tree) held) }
{
    if !may_choose(test.width, yes.width, no.width) {
        return Ok(None);
    }
    let Built {
        tree: test,
        width: _,
        depth: first,
    } = test;
    let Built {
        tree: yes,
        width,
        depth: second,
    } = yes;
    let Built {
        tree: no,
        width: _,
        depth: third,
    } = no;
    finished(
        alloc,
        Typed::Choose { test, yes, no },
        width,
        above_all(first, second, third),
    )
}

/// The depth of a node above operands of these depths.
fn above(first: u16, second: u16) -> u16
    requires first { first ≤ 2000 }
    requires second { second ≤ 2000 }
    ensures { result ≡ max first second + 1 }
{
    if first < second {
        second + 1
    } else {
        first + 1
    }
}

fn above_all(first: u16, second: u16, third: u16) -> u16
    requires first { first ≤ 2000 }
    requires second { second ≤ 2000 }
    requires third { third ≤ 2000 }
    ensures { result ≡ max first (max second third) + 1 }
{
    if second < third {
        above(first, third)
    } else {
        above(first, second)
    }
}
