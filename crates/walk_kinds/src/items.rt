ghost use Rattle.std.specs.Prelude.{◌≡◌, ℕ, false, List, ◌∷◌};
ghost use Rattle.vlog_tree.specs.declared.module.SourceFile.{SourceFile};
ghost use Rattle.vlog_tree.specs.declared.item.Item as tree;
ghost use Rattle.vlog_tree.specs.Trees.{layer};
ghost use Rattle.scope_meaning.specs.Declared.{is_region};
ghost use Rattle.scope_meaning.specs.Scope.{Here, At};
ghost use Rattle.scope_meaning.specs.Visits.{Visits};
ghost use Rattle.scope_meaning.specs.ScopeTrees.{modules};
ghost use Rattle.elab_modules.specs.Modules.{AreModules};
ghost use Rattle.walk_laws.specs.Rest.{Task, some_items};
ghost use Rattle.walk_state.specs.declared.left.Left.TheVariants as left;
ghost use Rattle.walk_state.specs.Standing.{IsStanding, IsMidway};
ghost use Rattle.walk_steps.specs.Steps.{HasStepped};

use crate::kinds::through_item;
use elab_modules::Modules;
use elab_types::ElabFault;
use std::alloc::Global;
use vlog_tree::{Item, ItemKind};
use walk_items::begin_item;
use walk_moves::to_region;
use walk_state::{Left, Walk};

/// Goes on from an item that is no region.
fn step_place<'a>(
    alloc: Global,
    table: &Modules<'a>,
    walk: &mut Walk<'a>,
    item: &'a Item,
) -> Result<(), ElabFault>
    requires { is_region (layer item.now) ≡ false }
    ensures { (files : List SourceFile) (top : List ℕ) (done : Visits) (here : Here) (at : At) (rest : List tree.Item) (under : List Task)
        → AreModules files table.now
        → IsMidway (modules files) top done here at at (some_items here (item.now ∷ rest) ∷ under) (some_items here rest ∷ under) walk.old
        → HasStepped (modules files) top walk.new result }
{
    let number = walk.here.item;
    let before = walk.here.construct;
    match begin_item(alloc, walk, item) {
        Ok(()) => through_item(alloc, table, walk, item, number, before),
        Err(fault) => Err(fault),
    }
}

/// Goes on from an item, behind which others are left.
fn step_item<'a>(
    alloc: Global,
    table: &Modules<'a>,
    walk: &mut Walk<'a>,
    item: &'a Item,
) -> Result<(), ElabFault>
    ensures { (files : List SourceFile) (top : List ℕ) (done : Visits) (here : Here) (at : At) (rest : List tree.Item) (under : List Task)
        → AreModules files table.now
        → IsMidway (modules files) top done here at at (some_items here (item.now ∷ rest) ∷ under) (some_items here rest ∷ under) walk.old
        → HasStepped (modules files) top walk.new result }
{
    match &item.what {
        ItemKind::Generate(inner) => {
            to_region(walk, inner.as_slice())?;
            Ok(())
        }
        _ => step_place(alloc, table, walk, item),
    }
}

/// Goes on at the items that are left in a scope: at the first of them, or behind them where there is none.
pub fn step_items<'a>(
    alloc: Global,
    table: &Modules<'a>,
    walk: &mut Walk<'a>,
    items: &'a [Item],
) -> Result<(), ElabFault>
    ensures { (files : List SourceFile) (top : List ℕ) (done : Visits) (here : Here) (at : At) (tasks : List Task)
        → AreModules files table.now
        → IsStanding (modules files) top done here at tasks (record walk.old { left = left.Items items.entry ∷ walk.old.left })
        → HasStepped (modules files) top walk.new result }
{
    match items.split_first() {
        Some(parts) => {
            walk.left.push(Left::Items { items: parts.1 })?;
            step_item(alloc, table, walk, parts.0)
        }
        None => Ok(()),
    }
}
