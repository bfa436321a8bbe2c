ghost use Rattle.std.specs.Prelude.{◌≡◌, ◌≤◌, ◌^◌, ◌+◌, ◌*◌, ℕ, List, ◌++◌, ◌∷◌, [], length, IfOk};
ghost use Rattle.cov_types.specs.declared.kind.ProcessKind.{ProcessKind as AnyKind};
ghost use Rattle.cvd_cursor.specs.Reads.{Reads};
ghost use Rattle.cvd_targets.specs.Lists.{AreTurns};
ghost use Rattle.cvd_targets.specs.TargetParts.{SoFar, TargetIn, TargetsIn, counted_targets};
ghost use Rattle.design_tree.specs.declared.design.Design.{Design};
ghost use Rattle.design_tree.specs.declared.step.Target.{Target as AnyTarget};
ghost use Rattle.cvd_step_laws.specs.LineMarks.{with_vars};
ghost use Rattle.cvd_step_laws.specs.StepMarks.{targets_marks};

use crate::count::{rows_for, turns};
use crate::target::{Written, read_target};
use cov_types::{NoMemory, ProcessKind, Rows, Var};
use cvd_cursor::{Cursor, ReadFault, number};
use design_tree::Target;
use std::alloc::Global;

/// The greatest number of nodes of the expressions of a design.
const MOST: usize = 4_194_304;

/// Targets with their width together and the number of their nodes.
#[derive(Drop)]
pub(crate) struct Targets {
    pub(crate) items: Rows<Target>,
    pub(crate) width: u8,
    pub(crate) nodes: usize,
}

/// How many targets there are, and they; or nothing, where they may not stand together.
pub(crate) fn read_targets(
    alloc: Global,
    cursor: &mut Cursor<'_>,
    vars: &[Var],
    kind: ProcessKind,
) -> Result<Option<Targets>, ReadFault>
    requires { length vars.now ≤ 2 ^ 32 }
    ensures { Reads counted_targets (λ p held. TargetsIn (with_vars vars.now) kind p.1.items held) cursor.old result cursor.new }
{
    let count = number(cursor)?;
    let turns = turns(count, cursor.bytes_left());
    let held = more_targets(alloc, cursor, vars, kind, turns)?;
    Ok(held)
}

/// So many targets.
fn more_targets(
    alloc: Global,
    cursor: &mut Cursor<'_>,
    vars: &[Var],
    kind: ProcessKind,
    turns: u128,
) -> Result<Option<Targets>, ReadFault>
    requires { length vars.now ≤ 2 ^ 32 }
    ensures { (n bytes : ℕ) → AreTurns bytes n turns → length cursor.old.rest ≤ 2 * bytes + 1
        → Reads (targets_marks n) (λ m held. TargetsIn (with_vars vars.now) kind m.items held) cursor.old result cursor.new }
{
    let items = rows_for(alloc, turns)?;
    let mut kept = Targets {
        items,
        width: 0,
        nodes: 0,
    };
    let mut whole = true;
    let mut left = turns;
    while left > 0 {
        let one = read_target(alloc, cursor, vars, kind)?;
        whole = keep(&mut kept, whole, one)?;
        left -= 1;
    }
    if whole { Ok(Some(kept)) } else { Ok(None) }
}

/// Keeps a target behind others, where they may stand together; and says whether they may.
fn keep(kept: &mut Targets, whole: bool, one: Option<Written>) -> Result<bool, NoMemory>
    ensures { IfOk result (λ done. (d : Design) (k : AnyKind) (ts : List AnyTarget) (t : AnyTarget) → SoFar d k ts whole kept.old → TargetIn d k t one → SoFar d
        k (ts ++ t ∷ []) done kept.new) }
{
    if !whole {
        drop(one);
        return Ok(false);
    }
    let Some(one) = one else {
        return Ok(false);
    };
    let width = kept.width as u16 + one.width as u16;
    if width > 255 {
        drop(one);
        return Ok(false);
    }
    let nodes = kept.nodes.saturating_add(one.nodes);
    if nodes > MOST {
        drop(one);
        return Ok(false);
    }
    let Written {
        target,
        width: _,
        nodes: _,
    } = one;
    kept.items.push(target)?;
    kept.width = width as u8;
    kept.nodes = nodes;
    Ok(true)
}
