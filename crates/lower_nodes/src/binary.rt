ghost use Rattle.std.specs.Prelude.{◌≡◌, ◌&&◌, List, IfOk, max};
ghost use Rattle.elab_types.specs.declared.flat_source.FlatVar.{FlatVar};
ghost use Rattle.elab_types.specs.declared.flat_expression.FlatExpr.{FlatExpr};
ghost use Rattle.elab_types.specs.declared.flat_expression.FlatExpr.TheVariants as e;
ghost use Rattle.lower_nodes.specs.Operators as spec;
ghost use Rattle.lower_nodes.specs.Reads.{Lowers};

use crate::by_itself::{Reading, alone};
use crate::together::{both, kept};
use design_tree::{Typed, TypedUnary};
use lower_forms::{Form, SizedForm, binary, unary};
use sqlite_items::Boxed;
use std::alloc::{AllocError, Global};
use vlog_tree::BinaryOp;

/// How an operator sizes its operands (IEEE 1364-2005, 5.4).
#[derive(Clone, Copy)]
enum Sizing {
    /// Both take the context.
    InContext,
    /// The left one takes the context, the right one is valued by itself.
    Shift,
    /// Both have the greater of their sizes, and are read by their signs where both are signed.
    Comparison,
    /// Each is a test.
    Tests,
}

fn sizing_of(op: BinaryOp) -> Sizing
    ensures { result ≡ spec.sizing_of op }
{
    match op {
        BinaryOp::ShiftLeft
        | BinaryOp::ShiftRight
        | BinaryOp::ArithmeticShiftLeft
        | BinaryOp::ArithmeticShiftRight => Sizing::Shift,
        BinaryOp::Equal
        | BinaryOp::NotEqual
        | BinaryOp::CaseEqual
        | BinaryOp::CaseNotEqual
        | BinaryOp::Less
        | BinaryOp::LessOrEqual
        | BinaryOp::Greater
        | BinaryOp::GreaterOrEqual => Sizing::Comparison,
        BinaryOp::LogicalAnd | BinaryOp::LogicalOr => Sizing::Tests,
        _ => Sizing::InContext,
    }
}

pub(crate) fn greater(one: u8, other: u8) -> u8
    ensures { result ≡ max one other }
{
    if one < other { other } else { one }
}

/// Both are read by their signs.
fn both_signed(one: bool, other: bool) -> bool
    ensures { result ≡ (one && other) }
{
    one && other
}

fn in_context(
    alloc: Global,
    op: BinaryOp,
    left: SizedForm,
    right: SizedForm,
) -> Result<SizedForm, AllocError>
    ensures { IfOk result (λ t. spec.IsInContext op left right t) }
{
    let size = greater(left.size, right.size);
    let signed = left.signed && right.signed;
    let SizedForm {
        size: _,
        signed: _,
        form: left,
    } = left;
    let SizedForm {
        size: _,
        signed: _,
        form: right,
    } = right;
    let left = Boxed::new(alloc, left)?;
    let right = Boxed::new(alloc, right)?;
    Ok(SizedForm {
        size,
        signed,
        form: Form::Binary { op, left, right },
    })
}

fn shift(alloc: Global, op: BinaryOp, of: SizedForm, by: SizedForm) -> Result<SizedForm, AllocError>
    ensures { IfOk result (λ t. spec.IsShift op of by t) }
{
    let by = by.own(alloc)?;
    let SizedForm { size, signed, form } = of;
    let of = Boxed::new(alloc, form)?;
    Ok(SizedForm {
        size,
        signed,
        form: Form::Shift { op, of, by },
    })
}

fn compare(
    alloc: Global,
    op: BinaryOp,
    left: SizedForm,
    right: SizedForm,
) -> Result<SizedForm, AllocError>
    ensures { IfOk result (λ t. spec.IsComparison op left right t) }
{
    let size = greater(left.size, right.size);
    let by_sign = both_signed(left.signed, right.signed);
    let left = left.at(alloc, size, by_sign)?;
    let right = right.at(alloc, size, by_sign)?;
    let bit = binary(alloc, op, by_sign, left, right)?;
    Ok(alone(1, false, bit))
}

/// One `ror` round what is valued by itself.
pub(crate) fn test(alloc: Global, of: SizedForm) -> Result<Typed, AllocError>
    ensures { IfOk result (λ a. a ≡ spec.test_of of) }
{
    let own = of.own(alloc)?;
    unary(alloc, TypedUnary::ReduceOr, own)
}

fn tests(
    alloc: Global,
    op: BinaryOp,
    left: SizedForm,
    right: SizedForm,
) -> Result<SizedForm, AllocError>
    ensures { IfOk result (λ t. spec.AreTests op left right t) }
{
    let left = test(alloc, left)?;
    let right = test(alloc, right)?;
    let bit = binary(alloc, op, false, left, right)?;
    Ok(alone(1, false, bit))
}

/// An operator of a sizing round two expressions.
fn sized(
    alloc: Global,
    sizing: Sizing,
    op: BinaryOp,
    left: SizedForm,
    right: SizedForm,
) -> Result<SizedForm, AllocError>
    ensures { IfOk result (λ t. spec.IsSized sizing op left right t) }
{
    match sizing {
        Sizing::InContext => in_context(alloc, op, left, right),
        Sizing::Shift => shift(alloc, op, left, right),
        Sizing::Comparison => compare(alloc, op, left, right),
        Sizing::Tests => tests(alloc, op, left, right),
    }
}

/// A binary operator round two expressions.
fn made(
    alloc: Global,
    op: BinaryOp,
    left: SizedForm,
    right: SizedForm,
) -> Result<SizedForm, AllocError>
    ensures { IfOk result (λ t. spec.IsBinary op left right t) }
{
    sized(alloc, sizing_of(op), op, left, right)
}

/// A binary operator.
pub fn read_binary(alloc: Global, op: BinaryOp, left: Reading, right: Reading) -> Reading
    ensures { (vars : List FlatVar) (a b : FlatExpr) → Lowers vars a left → Lowers vars b right → Lowers vars (e.Binary op a b) result }
{
    let operands = both(left, right);
    match operands {
        Ok((left, right)) => kept(made(alloc, op, left, right)),
        Err(fault) => Err(fault),
    }
}
