ghost use Rattle.std.specs.Prelude.{◌≡◌, ◌≤◌, List, [], ◌∷◌, IfOk, Some};
ghost use Rattle.design_tree.specs.declared.design.Design.{Design};
ghost use Rattle.design_tree.specs.declared.typed.Typed.{Typed};
ghost use Rattle.cvd_nodes.specs.Trees.{push};
ghost use Rattle.cvd_expressions.specs.Builds.{AllBuilt, Builds, IsBuilt, Puts, arity, tops};

use crate::built::Built;
use crate::many::{binary, choice, join, part};
use crate::one::{cut, number, repeats, signs, unary, variable, word, zeros};
use cov_types::Var;
use cvd_nodes::Node;
use sqlite_items::Items;
use std::alloc::{AllocError, Global};

/// A node and its operands, which are on the stack.
pub(crate) fn put(
    alloc: Global,
    node: Node,
    stack: &mut Items<Built>,
    vars: &[Var],
) -> Result<Option<Built>, AllocError>
    ensures { IfOk result (λ held. (d : Design) (us : List Typed) → d.vars ≡ vars.now → AllBuilt d stack.old → push node (tops stack.old) ≡ Some us → Puts d
        held
        stack.new us) }
{
    let operands = arity(node);
    if operands == 0 {
        return leaf(alloc, node, vars);
    }
    if operands == 1 {
        return put_one(alloc, node, stack, vars);
    }
    let held = put_more(alloc, node, stack)?;
    Ok(held)
}

/// The number of operands of a node.
fn arity(node: Node) -> u8
    ensures value { result ≡ arity node }
    ensures most { result ≤ 3 }
{
    match node {
        Node::Number { .. } | Node::Var { .. } => 0,
        Node::Part { .. } | Node::Binary { .. } | Node::Join => 2,
        Node::Choose => 3,
        Node::Word { .. }
        | Node::ZeroExtend { .. }
        | Node::SignExtend { .. }
        | Node::Truncate { .. }
        | Node::Unary { .. }
        | Node::Repeat { .. } => 1,
    }
}

fn put_one(
    alloc: Global,
    node: Node,
    stack: &mut Items<Built>,
    vars: &[Var],
) -> Result<Option<Built>, AllocError>
    requires { arity node ≡ 1 }
    ensures { IfOk result (λ held. (d : Design) (us : List Typed) → d.vars ≡ vars.now → AllBuilt d stack.old → push node (tops stack.old) ≡ Some us → Puts d
        held
        stack.new us) }
{
    let Some(first) = stack.pop() else {
        return Ok(None);
    };
    let held = one(alloc, node, first, vars)?;
    Ok(held)
}

fn put_more(
    alloc: Global,
    node: Node,
    stack: &mut Items<Built>,
) -> Result<Option<Built>, AllocError>
    requires { 2 ≤ arity node }
    ensures { IfOk result (λ held. (d : Design) (us : List Typed) → AllBuilt d stack.old → push node (tops stack.old) ≡ Some us → Puts d held stack.new us) }
{
    if arity(node) == 2 {
        return put_two(alloc, node, stack);
    }
    put_three(alloc, node, stack)
}

fn put_two(alloc: Global, node: Node, stack: &mut Items<Built>) -> Result<Option<Built>, AllocError>
    requires { arity node ≡ 2 }
    ensures { IfOk result (λ held. (d : Design) (us : List Typed) → AllBuilt d stack.old → push node (tops stack.old) ≡ Some us → Puts d held stack.new us) }
{
    let Some(first) = stack.pop() else {
        return Ok(None);
    };
    let Some(second) = stack.pop() else {
        return Ok(None);
    };
    let held = two(alloc, node, first, second)?;
    Ok(held)
}

fn put_three(
    alloc: Global,
    node: Node,
    stack: &mut Items<Built>,
) -> Result<Option<Built>, AllocError>
    requires { arity node ≡ 3 }
    ensures { IfOk result (λ held. (d : Design) (us : List Typed) → AllBuilt d stack.old → push node (tops stack.old) ≡ Some us → Puts d held stack.new us) }
{
    let Some(first) = stack.pop() else {
        return Ok(None);
    };
    let Some(second) = stack.pop() else {
        return Ok(None);
    };
    let Some(third) = stack.pop() else {
        return Ok(None);
    };
    let held = three(alloc, node, first, second, third)?;
    Ok(held)
}

fn leaf(alloc: Global, node: Node, vars: &[Var]) -> Result<Option<Built>, AllocError>
    ensures { IfOk result (λ held. (d : Design) (t : Typed) → d.vars ≡ vars.now → push node [] ≡ Some (t ∷ []) → Builds d t held) }
{
    match node {
        Node::Number { width, value } => number(alloc, width, value),
        Node::Var { var } => variable(alloc, vars, var),
        _ => Ok(None),
    }
}

fn one(alloc: Global, node: Node, of: Built, vars: &[Var]) -> Result<Option<Built>, AllocError>
    ensures { IfOk result (λ held. (d : Design) (t : Typed) → d.vars ≡ vars.now → IsBuilt d of → push node (of.tree ∷ []) ≡ Some (t ∷ []) → Builds d t held) }
{
    match node {
        Node::Word { var, low, signed } => word(alloc, vars, var, low, signed, of),
        Node::ZeroExtend { width } => zeros(alloc, width, of),
        Node::SignExtend { width } => signs(alloc, width, of),
        Node::Truncate { width } => cut(alloc, width, of),
        Node::Unary { op } => unary(alloc, op, of),
        Node::Repeat { count } => repeats(alloc, count, of),
        _ => Ok(None),
    }
}

fn two(alloc: Global, node: Node, first: Built, second: Built) -> Result<Option<Built>, AllocError>
    ensures { IfOk result (λ held. (d : Design) (t : Typed) → IsBuilt d first → IsBuilt d second → push node (first.tree ∷ second.tree ∷ []) ≡ Some (t ∷ []) →
        Builds d t held) }
{
    match node {
        Node::Part { width, low, signed } => part(alloc, width, low, signed, first, second),
        Node::Binary { op } => binary(alloc, op, first, second),
        Node::Join => join(alloc, first, second),
        _ => Ok(None),
    }
}

fn three(
    alloc: Global,
    node: Node,
    first: Built,
    second: Built,
    third: Built,
) -> Result<Option<Built>, AllocError>
    ensures { IfOk result (λ held. (d : Design) (t : Typed) → IsBuilt d first → IsBuilt d second → IsBuilt d third → push node
        (first.tree ∷ second.tree ∷ third.tree ∷ []) ≡ Some (t ∷ []) → Builds d t held) }
{
    match node {
        Node::Choose => choice(alloc, first, second, third),
        _ => Ok(None),
    }
}
