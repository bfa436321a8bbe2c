ghost use Rattle.std.specs.Prelude.{◌≡◌, ◌+◌, ℕ, false, List, ◌∷◌, IfOk};
ghost use Rattle.vlog_tree.specs.declared.module.Module.{Module};
ghost use Rattle.vlog_tree.specs.declared.item.Item as tree;
ghost use Rattle.vlog_tree.specs.Trees.{layer};
ghost use Rattle.scope_meaning.specs.Declared.{is_region};
ghost use Rattle.scope_meaning.specs.Scope.{Here, At};
ghost use Rattle.scope_meaning.specs.Visits.{Visits};
ghost use Rattle.walk_laws.specs.Rest.{Task, some_items};
ghost use Rattle.walk_state.specs.Standing.{IsMidway};
ghost use Rattle.walk_steps.specs.Steps.{HasBegun};

use cov_types::NoMemory;
use elab_blocks::declares_twice;
use elab_counts::{constructs, count};
use elab_types::ElabFault;
use std::alloc::Global;
use vlog_tree::Item;
use walk_state::Walk;

fn sum(one: u32, other: u32) -> Result<u32, NoMemory>
    ensures { IfOk result (λ all. all ≡ one + other) }
{
    match one.checked_add(other) {
        Some(all) => Ok(all),
        None => Err(NoMemory),
    }
}

/// Begins an item that is no region: its names stand in the scope from then on, and the next place is the one behind it.
/// `Duplicate` where one of its names stands there already, or twice in the item.
pub fn begin_item(alloc: Global, walk: &mut Walk<'_>, item: &Item) -> Result<(), ElabFault>
    ensures { (design : List Module) (top : List ℕ) (done : Visits) (here : Here) (at : At) (rest : List tree.Item) (under : List Task)
        → IsMidway design top done here at at (some_items here (item.now ∷ rest) ∷ under) (some_items here rest ∷ under) walk.old
        → is_region (layer item.now) ≡ false → HasBegun design top done here at item.now rest under walk.new result }
{
    let items = count(item)?;
    let made = constructs(item)?;
    let is_bad = declares_twice(alloc, &mut walk.here.earlier, item)?;
    if is_bad {
        return Err(ElabFault::Duplicate(item.place));
    }
    let next = sum(walk.here.item, items)?;
    let construct = sum(walk.here.construct, made)?;
    walk.here.item = next;
    walk.here.construct = construct;
    Ok(())
}
