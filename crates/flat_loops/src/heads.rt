ghost use Rattle.std.specs.Prelude.{◌≡◌, [], ◌∷◌, ◌++◌, IfOk};
ghost use Rattle.std.specs.List.{flat_map};
ghost use Rattle.vlog_tree.specs.declared.statement.CaseArm.{out-CaseArm};
ghost use Rattle.flat_source_meaning.specs.Variables as spec;
ghost use Rattle.flat_loops.specs.Others.{names_of_other};

use cov_types::{ByteText, NoMemory, Rows};
use sqlite_items::Boxed;
use std::alloc::Global;
use vlog_tree::{CaseArm, Stmt, StmtKind};

/// Names so far, or want of memory.
type Names = Result<Rows<ByteText>, NoMemory>;

/// The two names of the head of a loop, behind others.
fn with_head(alloc: Global, before: Rows<ByteText>, name: &[u8], step_name: &[u8]) -> Names
    ensures { IfOk result (λ all. all ≡ before ++ name.now ∷ step_name.now ∷ []) }
{
    let mut all = before;
    all.push(ByteText::from_slice(alloc, name)?)?;
    all.push(ByteText::from_slice(alloc, step_name)?)?;
    Ok(all)
}

/// The names in the heads of all loops in a statement, however often they turn, behind others.
#[cycle(named)]
fn with_statement(alloc: Global, before: Rows<ByteText>, of: &Stmt) -> Names
    ensures { IfOk result (λ all. all ≡ before ++ spec.loop_names of.now) }
{
    match &of.what {
        StmtKind::Block { body, last: _ } => return with_block(alloc, before, body.as_slice()),
        StmtKind::If { test: _, yes, no } => {
            let first = with_statement(alloc, before, yes.get())?;
            return with_other(alloc, first, no);
        }
        StmtKind::Case {
            wild: _,
            on: _,
            arms,
        } => {
            return with_arms(alloc, before, arms.as_slice());
        }
        StmtKind::For {
            name,
            from: _,
            test: _,
            step_name,
            step: _,
            body,
        } => {
            let head = with_head(alloc, before, name.as_slice(), step_name.as_slice())?;
            return with_statement(alloc, head, body.get());
        }
        StmtKind::Empty => return Ok(before),
        StmtKind::Set { .. } => return Ok(before),
        StmtKind::Later { .. } => return Ok(before),
        StmtKind::Show { .. } => return Ok(before),
        StmtKind::Finish => return Ok(before),
        StmtKind::Stop => return Ok(before),
    }
}

#[cycle(named)]
fn with_block(alloc: Global, before: Rows<ByteText>, body: &[Stmt]) -> Names
    ensures { IfOk result (λ all. all ≡ before ++ flat_map spec.loop_names body.now) }
{
    let mut all = before;
    for one in body {
        all = with_statement(alloc, all, one)?;
    }
    Ok(all)
}

#[cycle(named)]
fn with_other(alloc: Global, before: Rows<ByteText>, other: &Option<Boxed<Stmt>>) -> Names
    ensures { IfOk result (λ all. all ≡ before ++ names_of_other other.now) }
{
    match other {
        Some(other) => return with_statement(alloc, before, other.get()),
        None => return Ok(before),
    }
}

#[cycle(named)]
fn with_arms(alloc: Global, before: Rows<ByteText>, arms: &[CaseArm]) -> Names
    ensures { IfOk result (λ all. all ≡ before ++ flat_map (λ arm. spec.loop_names (out-CaseArm arm).body) arms.now) }
{
    let mut all = before;
    for arm in arms {
        all = with_statement(alloc, all, &arm.body)?;
    }
    Ok(all)
}

/// The names in the heads of all loops in a statement, in order; both names of each head.
pub fn loop_names(alloc: Global, of: &Stmt) -> Names
    ensures { IfOk result (λ all. all ≡ spec.loop_names of.now) }
{
    with_statement(alloc, Rows::new(alloc), of)
}
