ghost use Rattle.std.specs.Prelude.{◌≡◌, List, IfOk};
ghost use Rattle.elab_types.specs.declared.flat_source.FlatVar.{FlatVar};
ghost use Rattle.elab_types.specs.declared.flat_expression.FlatExpr.{FlatExpr};
ghost use Rattle.elab_types.specs.declared.flat_expression.FlatExpr.TheVariants as e;
ghost use Rattle.lower_nodes.specs.Operators as spec;
ghost use Rattle.lower_nodes.specs.Reads.{Lowers, MakesForm, IsForm};

use crate::by_itself::{Reading, alone};
use crate::together::kept;
use design_tree::{Typed, TypedUnary};
use lower_forms::{Form, SizedForm, unary};
use sqlite_items::Boxed;
use std::alloc::{AllocError, Global};
use vlog_tree::UnaryOp;

/// The reduction of `!` and of the reductions.
fn reduction_of(op: UnaryOp) -> TypedUnary
    ensures { result ≡ spec.reduction_of op }
{
    match op {
        UnaryOp::ReduceAnd | UnaryOp::ReduceNand => TypedUnary::ReduceAnd,
        UnaryOp::ReduceXor | UnaryOp::ReduceTildeCaret | UnaryOp::ReduceCaretTilde => {
            TypedUnary::ReduceXor
        }
        _ => TypedUnary::ReduceOr,
    }
}

/// `!`, `~&`, `~|`, `~^` and `^~` stand inside one `not`.
fn is_inverted(op: UnaryOp) -> bool
    ensures { result ≡ spec.is_inverted op }
{
    match op {
        UnaryOp::LogicalNot
        | UnaryOp::ReduceNand
        | UnaryOp::ReduceNor
        | UnaryOp::ReduceTildeCaret
        | UnaryOp::ReduceCaretTilde => true,
        _ => false,
    }
}

/// `!` and the reductions: one bit of a value.
fn reduced(alloc: Global, op: UnaryOp, of: Typed) -> Result<Typed, AllocError>
    ensures { IfOk result (λ a. a ≡ spec.reduced op of) }
{
    let all = unary(alloc, reduction_of(op), of)?;
    if is_inverted(op) {
        return unary(alloc, TypedUnary::Not, all);
    }
    Ok(all)
}

/// `-` and `~`, whose operand takes the context.
fn waiting(alloc: Global, op: TypedUnary, of: SizedForm) -> Result<SizedForm, AllocError>
    ensures { IfOk result (λ t. spec.IsWaiting op of t) }
{
    let SizedForm { size, signed, form } = of;
    let of = Boxed::new(alloc, form)?;
    Ok(SizedForm {
        size,
        signed,
        form: Form::Unary { op, of },
    })
}

fn reduce(alloc: Global, op: UnaryOp, of: SizedForm) -> Result<SizedForm, AllocError>
    ensures { IfOk result (λ t. spec.IsReduced op of t) }
{
    let own = of.own(alloc)?;
    let all = reduced(alloc, op, own)?;
    Ok(alone(1, false, all))
}

/// A unary operator round an expression.
fn made(alloc: Global, op: UnaryOp, of: SizedForm) -> Result<SizedForm, AllocError>
    ensures { (vars : List FlatVar) (a : FlatExpr) → IsForm vars a of → MakesForm vars (e.Unary op a) result }
{
    match op {
        UnaryOp::Plus => Ok(of),
        UnaryOp::Minus => waiting(alloc, TypedUnary::Neg, of),
        UnaryOp::Complement => waiting(alloc, TypedUnary::Not, of),
        _ => reduce(alloc, op, of),
    }
}

/// A unary operator.
pub fn read_unary(alloc: Global, op: UnaryOp, of: Reading) -> Reading
    ensures { (vars : List FlatVar) (a : FlatExpr) → Lowers vars a of → Lowers vars (e.Unary op a) result }
{
    match of {
        Ok(of) => kept(made(alloc, op, of)),
        Err(fault) => Err(fault),
    }
}
