ghost use Rattle.std.specs.Prelude.{List, ℕ, IfOk};
ghost use Rattle.vlog_tree.specs.declared.statement.Stmt.{Stmt};
ghost use Rattle.flat_passes.specs.Turns.{loop_of, IsTurn, IsNext};

use crate::head::PassHead;
use crate::pass::InPass;
use crate::reads::{assigned_in, holds_in};
use cov_types::NoMemory;
use elab_constants::Names;
use std::alloc::Global;

/// What comes at a value of the variable of a loop.
#[derive(Clone, Copy)]
pub(crate) enum Turn {
    /// Something of the head is no constant there.
    Lacks,
    /// The loop is over.
    Over,
    /// A pass, behind which the variable has this value.
    Next(u32),
}

/// What comes at a value: the test is read, and where it holds the step.
pub(crate) fn turn_at<N: Names>(
    alloc: Global,
    names: &N,
    head: PassHead<'_>,
    value: u32,
) -> Result<Turn, NoMemory>
    ensures { (step_name : List ℕ) (body : Stmt) → IfOk result (IsTurn (N.environment names.now) (loop_of head.entry step_name body) value) }
{
    let pass = InPass {
        outer: names,
        name: head.name,
        value,
    };
    match holds_in(alloc, &pass, head.test)? {
        Some(holds) => {
            if holds {
                return next_turn(alloc, names, head, value);
            }
            Ok(Turn::Over)
        }
        None => Ok(Turn::Lacks),
    }
}

/// What comes behind a pass at a value.
fn next_turn<N: Names>(
    alloc: Global,
    names: &N,
    head: PassHead<'_>,
    value: u32,
) -> Result<Turn, NoMemory>
    ensures { (step_name : List ℕ) (body : Stmt) → IfOk result (IsNext (N.environment names.now) (loop_of head.entry step_name body) value) }
{
    let pass = InPass {
        outer: names,
        name: head.name,
        value,
    };
    match assigned_in(alloc, &pass, head.step)? {
        Some(next) => Ok(Turn::Next(next)),
        None => Ok(Turn::Lacks),
    }
}
