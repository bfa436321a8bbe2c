ghost use Rattle.std.specs.Prelude.{◌≡◌, ◌∷◌, ◌++◌, [], ◌||◌, Bool, List};
ghost use Rattle.vlog_tree.specs.declared.expression.Expr.{Expr as Expression};
ghost use Rattle.vlog_tree.specs.declared.expression.Expr.TheVariants as e;
ghost use Rattle.vlog_tree.specs.declared.expression.Select.{Select as Part};
ghost use Rattle.vlog_tree.specs.declared.expression.Select.TheVariants as part;
ghost use Rattle.elab_types.specs.declared.flat_source.FlatVar.{FlatVar};
ghost use Rattle.source_meaning.specs.Environment.{Environment};
ghost use Rattle.flat_meaning.specs.FlatForm.{IsFlat, IsFlatSelect, AreFlat};
ghost use Rattle.flat_expressions.specs.Copies.{Copied, lacks};
ghost use Rattle.flat_expressions.specs.Copies as spec;

use crate::fault::CopyFault;
use crate::made::{
    Copying, SelectCopying, made_at, made_between, made_binary, made_call, made_choice, made_down,
    made_repeat, made_select, made_unary, made_up,
};
use crate::resolved::{Resolved, Resolves};
use elab_types::FlatExpr;
use sqlite_items::Items;
use std::alloc::Global;
use vlog_tree::{BinaryOp, SystemCall, UnaryOp};

/// Flat expressions, or why one of them isn't there.
pub(crate) type Parts = Result<Vec<FlatExpr>, CopyFault>;

/// Both, or why one isn't there.
fn both<A: Drop, B: Drop>(
    one: Result<A, CopyFault>,
    other: Result<B, CopyFault>,
) -> Result<(A, B), CopyFault>
    ensures { result ≡ spec.both one other }
{
    match one {
        Ok(one) => match other {
            Ok(other) => Ok((one, other)),
            Err(fault) => Err(fault),
        },
        Err(fault) => Err(fault),
    }
}

pub(crate) fn name<N: Resolves>(names: &N, name: &[u8]) -> Copying
    ensures { Copied (IsFlat (N.vars names.now) (N.environment names.now) (e.Name name.now)) (lacks (N.environment names.now) (name.now ∷ [])) result }
{
    match names.resolve(name) {
        Resolved::Variable(number) => Ok(FlatExpr::Var(number)),
        Resolved::Constant {
            width,
            signed,
            value,
        } => Ok(FlatExpr::Number {
            width,
            signed,
            value,
            free: 0,
        }),
        Resolved::Nothing => Err(CopyFault::Unknown),
    }
}

pub(crate) fn unary(alloc: Global, op: UnaryOp, of: Copying) -> Copying
    ensures { (vars : List FlatVar) (env : Environment) (a : Expression) (la : Bool) → Copied (IsFlat vars env a) la of
        → Copied (IsFlat vars env (e.Unary op a)) la result }
{
    match of {
        Ok(of) => made_unary(alloc, op, of),
        Err(fault) => Err(fault),
    }
}

pub(crate) fn call(alloc: Global, name: SystemCall, of: Copying) -> Copying
    ensures { (vars : List FlatVar) (env : Environment) (a : Expression) (la : Bool) → Copied (IsFlat vars env a) la of
        → Copied (IsFlat vars env (e.Call name a)) la result }
{
    match of {
        Ok(of) => made_call(alloc, name, of),
        Err(fault) => Err(fault),
    }
}

pub(crate) fn binary(alloc: Global, op: BinaryOp, left: Copying, right: Copying) -> Copying
    ensures { (vars : List FlatVar) (env : Environment) (a b : Expression) (la lb : Bool) → Copied (IsFlat vars env a) la left
        → Copied (IsFlat vars env b) lb right → Copied (IsFlat vars env (e.Binary op a b)) (la || lb) result }
{
    let all = both(left, right);
    match all {
        Ok((left, right)) => made_binary(alloc, op, left, right),
        Err(fault) => Err(fault),
    }
}

pub(crate) fn choice(alloc: Global, test: Copying, yes: Copying, no: Copying) -> Copying
    ensures { (vars : List FlatVar) (env : Environment) (t a b : Expression) (lt la lb : Bool) → Copied (IsFlat vars env t) lt test
        → Copied (IsFlat vars env a) la yes → Copied (IsFlat vars env b) lb no
        → Copied (IsFlat vars env (e.Choose t a b)) (lt || la || lb) result }
{
    let first = both(test, yes);
    let all = both(first, no);
    match all {
        Ok((first, no)) => {
            let (test, yes) = first;
            made_choice(alloc, test, yes, no)
        }
        Err(fault) => Err(fault),
    }
}

pub(crate) fn join(parts: Parts) -> Copying
    ensures { (vars : List FlatVar) (env : Environment) (ps : List Expression) (lp : Bool) → Copied (λ v. AreFlat vars env ps v.items) lp parts
        → Copied (IsFlat vars env (e.Join ps)) lp result }
{
    match parts {
        Ok(parts) => Ok(FlatExpr::Join(Items::from_vec(parts))),
        Err(fault) => Err(fault),
    }
}

pub(crate) fn repeat(alloc: Global, count: Copying, parts: Parts) -> Copying
    ensures { (vars : List FlatVar) (env : Environment) (a : Expression) (ps : List Expression) (la lp : Bool) → Copied (IsFlat vars env a) la count
        → Copied (λ v. AreFlat vars env ps v.items) lp parts → Copied (IsFlat vars env (e.Repeat a ps)) (la || lp) result }
{
    let all = both(count, parts);
    match all {
        Ok((count, parts)) => made_repeat(alloc, count, parts),
        Err(fault) => Err(fault),
    }
}

pub(crate) fn select(alloc: Global, base: Copying, part: SelectCopying) -> Copying
    ensures { (vars : List FlatVar) (env : Environment) (a : Expression) (s : Part) (la ls : Bool) → Copied (IsFlat vars env a) la base
        → Copied (IsFlatSelect vars env s) ls part → Copied (IsFlat vars env (e.Select a s)) (la || ls) result }
{
    let all = both(base, part);
    match all {
        Ok((base, part)) => made_select(alloc, base, part),
        Err(fault) => Err(fault),
    }
}

pub(crate) fn at(alloc: Global, position: Copying) -> SelectCopying
    ensures { (vars : List FlatVar) (env : Environment) (a : Expression) (la : Bool) → Copied (IsFlat vars env a) la position
        → Copied (IsFlatSelect vars env (part.At a)) la result }
{
    match position {
        Ok(position) => made_at(alloc, position),
        Err(fault) => Err(fault),
    }
}

pub(crate) fn between(alloc: Global, high: Copying, low: Copying) -> SelectCopying
    ensures { (vars : List FlatVar) (env : Environment) (a b : Expression) (la lb : Bool) → Copied (IsFlat vars env a) la high
        → Copied (IsFlat vars env b) lb low → Copied (IsFlatSelect vars env (part.Between a b)) (la || lb) result }
{
    let all = both(high, low);
    match all {
        Ok((high, low)) => made_between(alloc, high, low),
        Err(fault) => Err(fault),
    }
}

pub(crate) fn up(alloc: Global, from: Copying, width: Copying) -> SelectCopying
    ensures { (vars : List FlatVar) (env : Environment) (a b : Expression) (la lb : Bool) → Copied (IsFlat vars env a) la from
        → Copied (IsFlat vars env b) lb width → Copied (IsFlatSelect vars env (part.Up a b)) (la || lb) result }
{
    let all = both(from, width);
    match all {
        Ok((from, width)) => made_up(alloc, from, width),
        Err(fault) => Err(fault),
    }
}

pub(crate) fn down(alloc: Global, from: Copying, width: Copying) -> SelectCopying
    ensures { (vars : List FlatVar) (env : Environment) (a b : Expression) (la lb : Bool) → Copied (IsFlat vars env a) la from
        → Copied (IsFlat vars env b) lb width → Copied (IsFlatSelect vars env (part.Down a b)) (la || lb) result }
{
    let all = both(from, width);
    match all {
        Ok((from, width)) => made_down(alloc, from, width),
        Err(fault) => Err(fault),
    }
}

fn pushed(to: Vec<FlatExpr>, part: FlatExpr) -> Parts
    ensures { spec.MakesList (to.items ++ part ∷ []) result }
{
    let mut to = to;
    match to.push(part) {
        Ok(()) => Ok(to),
        Err(_) => Err(CopyFault::NoMemory),
    }
}

/// One part more behind those so far.
pub(crate) fn with(so_far: Parts, part: Copying) -> Parts
    ensures { (vars : List FlatVar) (env : Environment) (ps : List Expression) (a : Expression) (lp la : Bool)
        → Copied (λ v. AreFlat vars env ps v.items) lp so_far → Copied (IsFlat vars env a) la part
        → Copied (λ v. AreFlat vars env (ps ++ a ∷ []) v.items) (lp || la) result }
{
    let all = both(so_far, part);
    match all {
        Ok((parts, part)) => pushed(parts, part),
        Err(fault) => Err(fault),
    }
}
