ghost use Rattle.std.specs.Prelude.{◌≡◌, true, List, ℕ, [], IfOk};
ghost use Rattle.source_meaning.specs.Loops.{most_passes};
ghost use Rattle.flat_source_meaning.specs.FixedParts.{is_constant};
ghost use Rattle.flat_source_meaning.specs.ProcessLoops.{value_at_first};
ghost use Rattle.vlog_tree.specs.declared.statement.Stmt.{Stmt};
ghost use Rattle.flat_passes.specs.Turns.{loop_of, IsFrom, IsPasses};

use crate::head::PassHead;
use crate::pass::InPass;
use crate::reads::{assigned_in, holds_in};
use crate::turn::{Turn, turn_at};
use cov_types::{NoMemory, Rows};
use elab_constants::Names;
use std::alloc::Global;

/// As many passes as a loop may make.
const MOST_PASSES: u32 = 65_536;

/// The passes of a loop, or why there are none.
#[derive(Debug, Drop)]
pub enum Passes {
    /// The values of the loop variable, in order.
    Made(Rows<u32>),
    /// More than 65,536 passes would be made.
    TooMany,
    /// An expression of the head is no constant at some value at which it is read.
    NotConstant,
}

/// The passes where no more may be made behind those that are.
fn last_passes<N: Names>(
    alloc: Global,
    names: &N,
    head: PassHead<'_>,
    value: u32,
    made: Rows<u32>,
) -> Result<Passes, NoMemory>
    ensures { (step_name : List ℕ) (body : Stmt) → IfOk result (IsFrom (N.environment names.now) (loop_of head.entry step_name body) 0 value made) }
{
    let pass = InPass {
        outer: names,
        name: head.name,
        value,
    };
    match holds_in(alloc, &pass, head.test)? {
        Some(holds) => {
            if holds {
                return Ok(Passes::TooMany);
            }
            Ok(Passes::Made(made))
        }
        None => Ok(Passes::NotConstant),
    }
}

/// The passes from a first value on.
fn passes_from<N: Names>(
    alloc: Global,
    names: &N,
    head: PassHead<'_>,
    first: u32,
) -> Result<Passes, NoMemory>
    ensures { (step_name : List ℕ) (body : Stmt) → IfOk result (IsFrom (N.environment names.now) (loop_of head.entry step_name body) most_passes first []) }
{
    let mut made = Rows::new(alloc);
    let mut value = first;
    for _pass in 0..MOST_PASSES {
        let comes = turn_at(alloc, names, head, value)?;
        match comes {
            Turn::Next(next) => {
                made.push(value)?;
                value = next;
            }
            Turn::Over => return Ok(Passes::Made(made)),
            Turn::Lacks => return Ok(Passes::NotConstant),
        }
    }
    let all = last_passes(alloc, names, head, value, made)?;
    Ok(all)
}

/// The passes at a first value: the step is read there even where no pass is made.
fn passes_at<N: Names>(
    alloc: Global,
    names: &N,
    head: PassHead<'_>,
    first: u32,
) -> Result<Passes, NoMemory>
    ensures { (step_name : List ℕ) (body : Stmt) → is_constant (N.environment names.now) head.entry.from.now ≡ true
        → first ≡ value_at_first (N.environment names.now) (loop_of head.entry step_name body)
        → IfOk result (IsPasses (N.environment names.now) (loop_of head.entry step_name body)) }
{
    let pass = InPass {
        outer: names,
        name: head.name,
        value: first,
    };
    let step = assigned_in(alloc, &pass, head.step)?;
    match step {
        Some(_) => {
            let all = passes_from(alloc, names, head, first)?;
            Ok(all)
        }
        None => Ok(Passes::NotConstant),
    }
}

/// The passes of a loop whose head is read with these names.
pub fn pass_values<N: Names>(
    alloc: Global,
    names: &N,
    head: PassHead<'_>,
) -> Result<Passes, NoMemory>
    ensures { (step_name : List ℕ) (body : Stmt) → IfOk result (IsPasses (N.environment names.now) (loop_of head.entry step_name body)) }
{
    let from = assigned_in(alloc, names, head.from)?;
    match from {
        Some(first) => passes_at(alloc, names, head, first),
        None => Ok(Passes::NotConstant),
    }
}
