ghost use Rattle.std.specs.Prelude.{◌≡◌, ◌≤◌, IfOk};
ghost use Rattle.cvd_text.specs.Expressions.{tokens_of};
ghost use Rattle.cvd_cursor.specs.Reads.{Reads, marks};
ghost use Rattle.cvd_nodes.specs.Trees.{HoldsNodes, Keeps, operands};

use crate::head::Head;
use crate::node::{Node, read_node};
use cov_types::{NoMemory, Rows};
use cvd_cursor::{Cursor, ReadFault};
use std::alloc::Global;

/// The greatest number of nodes of the expressions of a design.
const MOST: usize = 4_194_304;

/// The nodes of an expression in the order in which they stand, or nothing where no design can have it: a number is too large, or
/// there are too many nodes. However deep it is, no call is made inside another.
pub fn read_nodes(alloc: Global, cursor: &mut Cursor<'_>) -> Result<Option<Rows<Node>>, ReadFault>
    ensures { Reads (marks tokens_of) HoldsNodes cursor.old result cursor.new }
{
    let most = 4 * cursor.bytes_left() as u128 + 3;
    let mut kept = Rows::new(alloc);
    let mut whole = true;
    let mut pending = 1u128;
    while pending > 0 {
        prove!(pending <= most);
        let (first, node) = read_node(cursor)?;
        pending = pending - 1 + operands(first);
        whole = keep(&mut kept, whole, node)?;
    }
    if whole { Ok(Some(kept)) } else { Ok(None) }
}

/// Keeps a node, where all before it were kept, it is one, and there is room; and says whether it did.
fn keep(kept: &mut Rows<Node>, whole: bool, node: Option<Node>) -> Result<bool, NoMemory>
    ensures { IfOk result (λ done. Keeps kept.old whole node done kept.new) }
{
    if !whole {
        return Ok(false);
    }
    let Some(node) = node else {
        return Ok(false);
    };
    if kept.len() >= MOST {
        return Ok(false);
    }
    kept.push(node)?;
    Ok(true)
}

/// The number of operands of a node.
fn operands(first: Head) -> u128
    ensures value { result ≡ operands first }
    ensures most { result ≤ 3 }
{
    match first {
        Head::Number | Head::Var => 0,
        Head::Word
        | Head::ZeroExtend
        | Head::SignExtend
        | Head::Truncate
        | Head::Unary(_)
        | Head::Repeat => 1,
        Head::Part | Head::Binary(_) | Head::Join => 2,
        Head::Choose => 3,
    }
}
