ghost use Rattle.std.specs.Prelude.{◌≡◌, ℕ, false, List};
ghost use Rattle.vlog_tree.specs.declared.module.SourceFile.{SourceFile};
ghost use Rattle.vlog_tree.specs.declared.item.Item as tree;
ghost use Rattle.vlog_tree.specs.Trees.{layer};
ghost use Rattle.scope_meaning.specs.Declared.{is_region};
ghost use Rattle.scope_meaning.specs.Scope.{Here, At};
ghost use Rattle.scope_meaning.specs.Visits.{Visits};
ghost use Rattle.scope_meaning.specs.ScopeTrees.{modules};
ghost use Rattle.elab_modules.specs.Modules.{AreModules};
ghost use Rattle.walk_laws.specs.Rest.{Task};
ghost use Rattle.walk_steps.specs.Steps.{IsBegun, HasStepped};

use elab_heads::LoopHead;
use elab_modules::Modules;
use elab_types::ElabFault;
use std::alloc::Global;
use vlog_tree::{Item, ItemKind};
use walk_choices::into_choice;
use walk_constants::past_constants;
use walk_items::{past_quiet, past_regs, past_wires};
use walk_loops::into_loop;
use walk_makes::into_instances;
use walk_state::Walk;

/// Goes on from an item of this number that is begun, and is no region, before which so many generate constructs stand.
pub(crate) fn through_item<'a>(
    alloc: Global,
    table: &Modules<'a>,
    walk: &mut Walk<'a>,
    item: &'a Item,
    number: u32,
    before: u32,
) -> Result<(), ElabFault>
    requires { is_region (layer item.now) ≡ false }
    ensures { (files : List SourceFile) (top : List ℕ) (done : Visits) (here : Here) (at : At) (rest : List tree.Item) (under : List Task)
        → AreModules files table.now → IsBegun (modules files) top done here at item.now rest under walk.old → number ≡ at.item → before ≡ at.construct
        → HasStepped (modules files) top walk.new result }
{
    match &item.what {
        ItemKind::Wire { range, .. } => past_wires(alloc, walk, item, number, range),
        ItemKind::Reg { range, names, .. } => {
            past_regs(alloc, walk, item, number, range, names.as_slice())
        }
        ItemKind::Integer(_) => past_quiet(walk, item, number),
        ItemKind::Genvar(_) => past_quiet(walk, item, number),
        ItemKind::Parameter { local, form, names } => past_constants(
            alloc,
            walk,
            item,
            number,
            *local,
            form,
            names.as_slice(),
        ),
        ItemKind::Assign(_) => past_quiet(walk, item, number),
        ItemKind::Initial(_) => past_quiet(walk, item, number),
        ItemKind::Always { .. } => past_quiet(walk, item, number),
        ItemKind::Cover { .. } => past_quiet(walk, item, number),
        ItemKind::Instances {
            module,
            params,
            made,
        } => into_instances(
            alloc,
            table,
            walk,
            item,
            number,
            module.as_slice(),
            params,
            made.as_slice(),
        ),
        ItemKind::Generate(_) => unreachable!(),
        ItemKind::Loop {
            name,
            from,
            test,
            step_name,
            step,
            block,
            body,
            ..
        } => into_loop(
            alloc,
            walk,
            item,
            number,
            LoopHead {
                name: name.as_slice(),
                from,
                test,
                step_name: step_name.as_slice(),
                step,
            },
            block.name.as_slice(),
            body.as_slice(),
        ),
        ItemKind::Choose { arms, last } => {
            into_choice(alloc, walk, item, number, before, arms.as_slice(), last)
        }
    }
}
