ghost use Rattle.std.specs.Prelude.{◌≡◌, ◌^◌, ℕ};
ghost use Rattle.cvd_cursor.specs.Numerals.{below, number_tokens};
ghost use Rattle.cvd_cursor.specs.Reads.{Reads, marks};
ghost use Rattle.cvd_nodes.specs.Nodes.{Fields, Low, constant_marks, field_marks, held_fields, held_node, own_marks, place_marks};
ghost use Rattle.cvd_nodes.specs.declared.head.Head.TheVariants as heads;

use crate::field::{low, number8, number32};
use crate::head::{Head, read_head};
use cvd_cursor::{Cursor, ReadFault, hex};
use design_tree::{TypedBinary, TypedUnary};

/// A node of an expression without its operands.
#[derive(Clone, Copy, Debug)]
pub enum Node {
    Number { width: u8, value: u128 },
    Var { var: u32 },
    Word { var: u32, low: u32, signed: bool },
    Part { width: u8, low: u32, signed: bool },
    ZeroExtend { width: u8 },
    SignExtend { width: u8 },
    Truncate { width: u8 },
    Unary { op: TypedUnary },
    Binary { op: TypedBinary },
    Join,
    Repeat { count: u8 },
    Choose,
}

/// The next node and how many operands it has; no node where a number doesn't fit its type.
pub(crate) fn read_node(cursor: &mut Cursor<'_>) -> Result<(Head, Option<Node>), ReadFault>
    ensures { Reads own_marks (λ n held. (held.0 ≡ n.0) × (held.1 ≡ held_node n)) cursor.old result cursor.new }
{
    let first = read_head(cursor)?;
    let node = fields(cursor, first)?;
    Ok((first, node))
}

/// The fields of a node.
fn fields(cursor: &mut Cursor<'_>, first: Head) -> Result<Option<Node>, ReadFault>
    ensures { Reads (field_marks first) (λ f held. held ≡ held_fields first f) cursor.old result cursor.new }
{
    match first {
        Head::Number => constant(cursor),
        Head::Var => variable(cursor),
        Head::Word => word(cursor),
        Head::Part => part(cursor),
        Head::ZeroExtend => zeros(cursor),
        Head::SignExtend => signs(cursor),
        Head::Truncate => cut(cursor),
        Head::Unary(op) => Ok(Some(Node::Unary { op })),
        Head::Binary(op) => Ok(Some(Node::Binary { op })),
        Head::Join => Ok(Some(Node::Join)),
        Head::Repeat => repeats(cursor),
        Head::Choose => Ok(Some(Node::Choose)),
    }
}

fn constant(cursor: &mut Cursor<'_>) -> Result<Option<Node>, ReadFault>
    ensures { Reads constant_marks (λ f held. held ≡ held_fields heads.Number f) cursor.old result cursor.new }
{
    let width = number8(cursor)?;
    let value = hex(cursor)?;
    Ok(constant_of(width, value))
}

fn constant_of(width: Option<u8>, value: Option<u128>) -> Option<Node>
    ensures { (f : Fields heads.Number) → width ≡ below 256 f.0 → value ≡ below (2 ^ 128) f.1 → result ≡ held_fields heads.Number f }
{
    match (width, value) {
        (Some(width), Some(value)) => Some(Node::Number { width, value }),
        _ => None,
    }
}

fn variable(cursor: &mut Cursor<'_>) -> Result<Option<Node>, ReadFault>
    ensures { Reads (marks number_tokens) (λ f held. held ≡ held_fields heads.Var f) cursor.old result cursor.new }
{
    match number32(cursor)? {
        Some(var) => Ok(Some(Node::Var { var })),
        None => Ok(None),
    }
}

fn word(cursor: &mut Cursor<'_>) -> Result<Option<Node>, ReadFault>
    ensures { Reads place_marks (λ f held. held ≡ held_fields heads.Word f) cursor.old result cursor.new }
{
    let var = number32(cursor)?;
    let at = low(cursor)?;
    Ok(word_of(var, at.0, at.1))
}

fn word_of(var: Option<u32>, low: Option<u32>, signed: bool) -> Option<Node>
    ensures { (v l : ℕ) → var ≡ below (2 ^ 32) v → low ≡ below (2 ^ 32) l → result ≡ held_fields heads.Word (v, (l, signed)) }
{
    match (var, low) {
        (Some(var), Some(low)) => Some(Node::Word { var, low, signed }),
        _ => None,
    }
}

fn part(cursor: &mut Cursor<'_>) -> Result<Option<Node>, ReadFault>
    ensures { Reads place_marks (λ f held. held ≡ held_fields heads.Part f) cursor.old result cursor.new }
{
    let width = number8(cursor)?;
    let at = low(cursor)?;
    Ok(part_of(width, at.0, at.1))
}

fn part_of(width: Option<u8>, low: Option<u32>, signed: bool) -> Option<Node>
    ensures { (w l : ℕ) → width ≡ below 256 w → low ≡ below (2 ^ 32) l → result ≡ held_fields heads.Part (w, (l, signed)) }
{
    match (width, low) {
        (Some(width), Some(low)) => Some(Node::Part { width, low, signed }),
        _ => None,
    }
}

fn zeros(cursor: &mut Cursor<'_>) -> Result<Option<Node>, ReadFault>
    ensures { Reads (marks number_tokens) (λ f held. held ≡ held_fields heads.ZeroExtend f) cursor.old result cursor.new }
{
    match number8(cursor)? {
        Some(width) => Ok(Some(Node::ZeroExtend { width })),
        None => Ok(None),
    }
}

fn signs(cursor: &mut Cursor<'_>) -> Result<Option<Node>, ReadFault>
    ensures { Reads (marks number_tokens) (λ f held. held ≡ held_fields heads.SignExtend f) cursor.old result cursor.new }
{
    match number8(cursor)? {
        Some(width) => Ok(Some(Node::SignExtend { width })),
        None => Ok(None),
    }
}

fn cut(cursor: &mut Cursor<'_>) -> Result<Option<Node>, ReadFault>
    ensures { Reads (marks number_tokens) (λ f held. held ≡ held_fields heads.Truncate f) cursor.old result cursor.new }
{
    match number8(cursor)? {
        Some(width) => Ok(Some(Node::Truncate { width })),
        None => Ok(None),
    }
}

fn repeats(cursor: &mut Cursor<'_>) -> Result<Option<Node>, ReadFault>
    ensures { Reads (marks number_tokens) (λ f held. held ≡ held_fields heads.Repeat f) cursor.old result cursor.new }
{
    match number8(cursor)? {
        Some(count) => Ok(Some(Node::Repeat { count })),
        None => Ok(None),
    }
}
