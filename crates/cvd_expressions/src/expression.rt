ghost use Rattle.std.specs.Prelude.{◌≡◌, ◌<◌, ◌≤◌, ◌^◌, length, IfOk};
ghost use Rattle.std.specs.List.{slice_get};
ghost use Rattle.cvd_text.specs.Expressions.{tokens_of};
ghost use Rattle.cvd_cursor.specs.Reads.{Reads, marks};
ghost use Rattle.design_tree.specs.declared.design.Design.{Design};
ghost use Rattle.design_tree.specs.declared.typed.Typed.{Typed};
ghost use Rattle.cvd_nodes.specs.Trees.{AreNodes};
ghost use Rattle.cvd_expressions.specs.Builds.{Builds, HoldsExpression};

use crate::built::Built;
use crate::put::put;
use cov_types::Var;
use cvd_cursor::{Cursor, ReadFault};
use cvd_nodes::{Node, read_nodes};
use design_tree::Typed;
use sqlite_items::{Boxed, Items};
use std::alloc::{AllocError, Global};

/// An expression with its width and the number of its nodes.
#[derive(Drop)]
pub struct Expression {
    pub tree: Boxed<Typed>,
    pub width: u8,
    pub nodes: usize,
}

/// An expression over variables, or nothing where it may not stand: it isn't well typed, is too deep, or has too many nodes.
pub fn read_expression(
    alloc: Global,
    cursor: &mut Cursor<'_>,
    vars: &[Var],
) -> Result<Option<Expression>, ReadFault>
    requires { length vars.now ≤ 2 ^ 32 }
    ensures { Reads (marks tokens_of) (HoldsExpression vars.now) cursor.old result cursor.new }
{
    let Some(nodes) = read_nodes(alloc, cursor)? else {
        return Ok(None);
    };
    let count = nodes.len();
    let Some(built) = build(alloc, nodes.as_slice(), vars)? else {
        return Ok(None);
    };
    let Built {
        tree,
        width,
        depth: _,
    } = built;
    Ok(Some(Expression {
        tree,
        width,
        nodes: count,
    }))
}

/// Puts nodes together, from the last to the first.
fn build(alloc: Global, nodes: &[Node], vars: &[Var]) -> Result<Option<Built>, AllocError>
    ensures { IfOk result (λ held. (d : Design) (t : Typed) → d.vars ≡ vars.now → AreNodes nodes.now t → Builds d t held) }
{
    let mut stack = Items::new(alloc);
    let mut left = nodes.len();
    while left > 0 {
        left -= 1;
        let node = node_at(nodes, left);
        let Some(built) = put(alloc, node, &mut stack, vars)? else {
            return Ok(None);
        };
        stack.push(built)?;
    }
    Ok(stack.pop())
}

fn node_at(nodes: &[Node], at: usize) -> Node
    requires { at < length nodes.now }
    ensures { slice_get nodes.now at ≡ Some result }
{
    nodes[at]
}
