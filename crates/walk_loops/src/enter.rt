ghost use Rattle.std.specs.Prelude.{◌≡◌, ◌<◌, ℕ, true, List, [], ◌∷◌, Some, None, OnOk, nat_lt};
ghost use Rattle.vlog_tree.specs.declared.module.Module.{Module};
ghost use Rattle.vlog_tree.specs.declared.item.Item as tree;
ghost use Rattle.scope_meaning.specs.Scope.{Here, At};
ghost use Rattle.scope_meaning.specs.Heads.{GenLoop, names_in_pass, test_of};
ghost use Rattle.scope_meaning.specs.ScopeRules.{refusal};
ghost use Rattle.scope_meaning.specs.Visits.{Visits, past};
ghost use Rattle.walk_laws.specs.Rest.{Task, a_turn_of};
ghost use Rattle.walk_laws.proofs.Steps.{test_seen};
ghost use Rattle.walk_state.specs.Standing.{IsMidway, IsLoop, IsOnWay};

use cov_types::NoMemory;
use elab_heads::pass_genvar;
use elab_texts::{inside, pass_name};
use std::alloc::Global;
use walk_entries::enter_block;
use walk_moves::number_after;
use walk_state::{Left, LoopPasses, Walk};

/// Enters the block of a pass of a generate loop, behind which its step is left to do.
pub(crate) fn enter_pass<'a>(
    alloc: Global,
    walk: &mut Walk<'a>,
    passes: Box<LoopPasses<'a>>,
    value: i32,
) -> Result<(), NoMemory>
    requires { walk.old.next < 65536 }
    ensures { (design : List Module) (top : List ℕ) (done : Visits) (here : Here) (place : At) (a : tree.Item) (l : GenLoop) (under : List Task)
        → IsMidway design top done here (past place a []) (past place a []) (a_turn_of here place a l value ∷ under) under walk.old
        → IsLoop place a l passes.entry.value → refusal design (test_seen here place a l value) ≡ None
        → test_of (names_in_pass here place l.name value) l.test ≡ Some true → nat_lt walk.old.next 65536 ≡ true
        → OnOk result (IsOnWay design top walk.new) }
{
    let item = passes.item;
    let body = passes.body;
    let first = number_after(item)?;
    let genvar = pass_genvar(alloc, passes.name, value)?;
    let name = pass_name(alloc, passes.block, value)?;
    let path = inside(alloc, walk.here.path.as_slice(), name.as_slice())?;
    walk.left.push(Left::Step { passes, value })?;
    enter_block(alloc, walk, item, first, path, Some(genvar), body)?;
    Ok(())
}
