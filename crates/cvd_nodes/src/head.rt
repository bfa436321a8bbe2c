ghost use Rattle.std.specs.Prelude.{◌≡◌};
ghost use Rattle.cvd_cursor.specs.Reads.{Reads, marks};
ghost use Rattle.cvd_nodes.specs.Heads.{head_of, look_up, other_table, plain_table, unary_table, value_table};
ghost use Rattle.cvd_nodes.specs.Nodes.{head_tokens};

use cvd_cursor::{Cursor, ReadFault};
use design_tree::{TypedBinary, TypedUnary};

/// The first word of an expression.
#[derive(Clone, Copy, Debug, PartialEq, Eq)]
pub enum Head {
    Number,
    Var,
    Word,
    Part,
    ZeroExtend,
    SignExtend,
    Truncate,
    Unary(TypedUnary),
    Binary(TypedBinary),
    Join,
    Repeat,
    Choose,
}

/// Takes the first word of an expression.
pub(crate) fn read_head(cursor: &mut Cursor<'_>) -> Result<Head, ReadFault>
    ensures { Reads (marks head_tokens) (λ h held. held ≡ h) cursor.old result cursor.new }
{
    let Some(word) = cursor.peek() else {
        return Err(cursor.wrong(false));
    };
    let Some(head) = head_of(word) else {
        return Err(ReadFault::BadToken);
    };
    cursor.skip();
    Ok(head)
}

fn head_of(word: &[u8]) -> Option<Head>
    ensures { result ≡ head_of word.now }
{
    if let Some(head) = plain_of(word) {
        return Some(head);
    }
    if let Some(op) = unary_of(word) {
        return Some(Head::Unary(op));
    }
    if let Some(op) = value_of(word) {
        return Some(Head::Binary(op));
    }
    match other_of(word) {
        Some(op) => Some(Head::Binary(op)),
        None => None,
    }
}

fn plain_of(word: &[u8]) -> Option<Head>
    ensures { result ≡ look_up plain_table word.now }
{
    if word == b"k".as_slice() {
        Some(Head::Number)
    } else if word == b"v".as_slice() {
        Some(Head::Var)
    } else if word == b"m".as_slice() {
        Some(Head::Word)
    } else if word == b"p".as_slice() {
        Some(Head::Part)
    } else if word == b"z".as_slice() {
        Some(Head::ZeroExtend)
    } else if word == b"x".as_slice() {
        Some(Head::SignExtend)
    } else if word == b"t".as_slice() {
        Some(Head::Truncate)
    } else if word == b"cat".as_slice() {
        Some(Head::Join)
    } else if word == b"rep".as_slice() {
        Some(Head::Repeat)
    } else if word == b"sel".as_slice() {
        Some(Head::Choose)
    } else {
        None
    }
}

fn unary_of(word: &[u8]) -> Option<TypedUnary>
    ensures { result ≡ look_up unary_table word.now }
{
    if word == b"not".as_slice() {
        Some(TypedUnary::Not)
    } else if word == b"neg".as_slice() {
        Some(TypedUnary::Neg)
    } else if word == b"rand".as_slice() {
        Some(TypedUnary::ReduceAnd)
    } else if word == b"ror".as_slice() {
        Some(TypedUnary::ReduceOr)
    } else if word == b"rxor".as_slice() {
        Some(TypedUnary::ReduceXor)
    } else {
        None
    }
}

/// An operator whose value has the width of its operands.
fn value_of(word: &[u8]) -> Option<TypedBinary>
    ensures { result ≡ look_up value_table word.now }
{
    if word == b"add".as_slice() {
        Some(TypedBinary::Add)
    } else if word == b"sub".as_slice() {
        Some(TypedBinary::Sub)
    } else if word == b"mul".as_slice() {
        Some(TypedBinary::Mul)
    } else if word == b"udiv".as_slice() {
        Some(TypedBinary::DivideUnsigned)
    } else if word == b"sdiv".as_slice() {
        Some(TypedBinary::DivideSigned)
    } else if word == b"urem".as_slice() {
        Some(TypedBinary::RemainderUnsigned)
    } else if word == b"srem".as_slice() {
        Some(TypedBinary::RemainderSigned)
    } else if word == b"and".as_slice() {
        Some(TypedBinary::And)
    } else if word == b"or".as_slice() {
        Some(TypedBinary::Or)
    } else if word == b"xor".as_slice() {
        Some(TypedBinary::Xor)
    } else {
        None
    }
}

/// A comparison or a shift.
fn other_of(word: &[u8]) -> Option<TypedBinary>
    ensures { result ≡ look_up other_table word.now }
{
    if word == b"eq".as_slice() {
        Some(TypedBinary::Equal)
    } else if word == b"ult".as_slice() {
        Some(TypedBinary::BelowUnsigned)
    } else if word == b"ule".as_slice() {
        Some(TypedBinary::AtMostUnsigned)
    } else if word == b"slt".as_slice() {
        Some(TypedBinary::BelowSigned)
    } else if word == b"sle".as_slice() {
        Some(TypedBinary::AtMostSigned)
    } else if word == b"shl".as_slice() {
        Some(TypedBinary::ShiftLeft)
    } else if word == b"shr".as_slice() {
        Some(TypedBinary::ShiftRight)
    } else if word == b"sar".as_slice() {
        Some(TypedBinary::ShiftRightSigned)
    } else {
        None
    }
}
