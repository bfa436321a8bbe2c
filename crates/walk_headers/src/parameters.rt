ghost use Rattle.std.specs.Prelude.{◌≡◌, ℕ, ◌+◌, List, ◌∷◌, IfOk};
ghost use Rattle.vlog_tree.specs.declared.item.Item as tree;
ghost use Rattle.vlog_tree.specs.declared.item.ItemKind.TheOpen as i;
ghost use Rattle.vlog_tree.specs.declared.module.Module as whole;
ghost use Rattle.vlog_tree.specs.Trees.{layer};
ghost use Rattle.scope_meaning.specs.Scope.{Here, At};
ghost use Rattle.scope_meaning.specs.Visits.{Visits};
ghost use Rattle.walk_laws.specs.Rest.{Task, a_header};
ghost use Rattle.walk_state.specs.declared.left.Left.TheVariants as left;
ghost use Rattle.walk_state.specs.Standing.{IsStanding};
ghost use Rattle.walk_modules.specs.Openings.{IsOpening};
ghost use Rattle.walk_steps.specs.Steps.{HasStepped};
ghost use Rattle.walk_headers.specs.Headers.{IsBegun, HasBegun};

use cov_types::NoMemory;
use elab_blocks::declares_twice;
use elab_counts::{constructs, count};
use elab_parameters::judge_parameters;
use elab_types::ElabFault;
use std::alloc::Global;
use vlog_tree::{Item, ItemKind, Module, ParamForm, ParamName};
use walk_modules::{past_parameter, to_ports};
use walk_state::Walk;

/// A sum, where it fits.
fn sum(one: u32, other: u32) -> Result<u32, NoMemory>
    ensures { IfOk result (λ all. all ≡ one + other) }
{
    match one.checked_add(other) {
        Some(all) => Ok(all),
        None => Err(NoMemory),
    }
}

/// Begins an item of the header of a module: its names stand in the scope from then on, and the next place is the one behind
/// it. `Duplicate` where one of its names stands there already, or twice in the item.
fn begin_parameter(alloc: Global, walk: &mut Walk<'_>, item: &Item) -> Result<(), ElabFault>
    ensures { (design : List whole.Module) (top : List ℕ) (done : Visits) (here : Here) (at : At) (m : whole.Module) (rest : List tree.Item) (under : List Task)
        → IsOpening design top done here at at m (a_header here m (item.now ∷ rest) ∷ under) under walk.old
        → HasBegun design top done here at m item.now rest under walk.new result }
{
    let items = count(item)?;
    let made = constructs(item)?;
    let is_bad = declares_twice(alloc, &mut walk.here.earlier, item)?;
    if is_bad {
        return Err(ElabFault::Duplicate(item.place));
    }
    let next = sum(walk.here.item, items)?;
    let construct = sum(walk.here.construct, made)?;
    walk.here.item = next;
    walk.here.construct = construct;
    Ok(())
}

/// Goes past a declaration of parameters in the header of a module, which is begun.
fn past_declaration<'a>(
    alloc: Global,
    walk: &mut Walk<'a>,
    of: &'a Module,
    item: &'a Item,
    rest: &'a [Item],
    local: bool,
    form: &ParamForm,
    declared: &[ParamName],
) -> Result<(), ElabFault>
    ensures { (design : List whole.Module) (top : List ℕ) (done : Visits) (here : Here) (at : At) (under : List Task)
        → IsBegun design top done here at of.now item.now rest.now under walk.old → layer item.now ≡ i.Parameter local form.now declared.now
        → HasStepped design top walk.new result }
{
    match judge_parameters(
        alloc,
        &mut walk.names,
        &walk.here.given,
        item.place,
        local,
        form,
        declared,
    ) {
        Ok(constants) => {
            past_parameter(walk, of, rest, constants)?;
            Ok(())
        }
        Err(fault) => Err(fault),
    }
}

/// Goes past an item of the header of a module that is begun. The parser makes none there but declarations of parameters.
fn past_item<'a>(
    alloc: Global,
    walk: &mut Walk<'a>,
    of: &'a Module,
    item: &'a Item,
    rest: &'a [Item],
) -> Result<(), ElabFault>
    ensures { (design : List whole.Module) (top : List ℕ) (done : Visits) (here : Here) (at : At) (under : List Task)
        → IsBegun design top done here at of.now item.now rest.now under walk.old → HasStepped design top walk.new result }
{
    match &item.what {
        ItemKind::Parameter { local, form, names } => past_declaration(
            alloc,
            walk,
            of,
            item,
            rest,
            *local,
            form,
            names.as_slice(),
        ),
        _ => Err(ElabFault::NoMemory),
    }
}

/// Goes on from the first of the items that are left in the header of a module.
fn step_parameter<'a>(
    alloc: Global,
    walk: &mut Walk<'a>,
    of: &'a Module,
    item: &'a Item,
    rest: &'a [Item],
) -> Result<(), ElabFault>
    ensures { (design : List whole.Module) (top : List ℕ) (done : Visits) (here : Here) (at : At) (under : List Task)
        → IsOpening design top done here at at of.now (a_header here of.now (item.now ∷ rest.now) ∷ under) under walk.old
        → HasStepped design top walk.new result }
{
    match begin_parameter(alloc, walk, item) {
        Ok(()) => past_item(alloc, walk, of, item, rest),
        Err(fault) => Err(fault),
    }
}

/// Goes on at what is left of the header of a module: at the first of its items, or to the ports where there is none.
pub fn step_header<'a>(
    alloc: Global,
    walk: &mut Walk<'a>,
    of: &'a Module,
    items: &'a [Item],
) -> Result<(), ElabFault>
    ensures { (design : List whole.Module) (top : List ℕ) (done : Visits) (here : Here) (at : At) (tasks : List Task)
        → IsStanding design top done here at tasks (record walk.old { left = left.Header of.entry items.entry ∷ walk.old.left })
        → HasStepped design top walk.new result }
{
    match items.split_first() {
        Some(parts) => step_parameter(alloc, walk, of, parts.0, parts.1),
        None => {
            to_ports(walk, of)?;
            Ok(())
        }
    }
}
