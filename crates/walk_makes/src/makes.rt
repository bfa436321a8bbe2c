ghost use Rattle.std.specs.Prelude.{◌≡◌, ℕ, List, Some, IfOk, OnOk};
ghost use Rattle.vlog_tree.specs.declared.module.Module as tree;
ghost use Rattle.vlog_tree.specs.declared.module.SourceFile.{SourceFile};
ghost use Rattle.vlog_tree.specs.declared.item.Item as row;
ghost use Rattle.vlog_tree.specs.declared.item.ItemKind.TheOpen as i;
ghost use Rattle.vlog_tree.specs.Trees.{layer};
ghost use Rattle.scope_meaning.specs.Scope.{Here, At};
ghost use Rattle.scope_meaning.specs.Heads.{module_named};
ghost use Rattle.scope_meaning.specs.Visits.{Visits, with_next};
ghost use Rattle.scope_meaning.specs.ScopeTrees.{modules};
ghost use Rattle.elab_modules.specs.Modules.{AreModules};
ghost use Rattle.walk_laws.specs.Rest.{Task};
ghost use Rattle.walk_state.specs.Standing.{IsOnWay, IsTaken};
ghost use Rattle.walk_steps.specs.Steps.{IsBegun, HasStepped};
ghost use Rattle.walk_makes.specs.Made.{IsMadeBy};

use cov_types::NoMemory;
use elab_instances::judge_instances;
use elab_modules::Modules;
use elab_types::ElabFault;
use std::alloc::Global;
use vlog_tree::{Conns, Instance, Item, Module};
use walk_moves::to_instances;
use walk_state::{MadeBy, Walk};

fn boxed<'a>(alloc: Global, by: MadeBy<'a>) -> Result<Box<MadeBy<'a>>, NoMemory>
    ensures { IfOk result (λ kept. kept.value ≡ by.entry) }
{
    match Box::new(alloc, by) {
        Ok(kept) => Ok(kept),
        Err(_) => Err(NoMemory),
    }
}

/// The module with this number.
pub fn module_of<'a>(table: &Modules<'a>, number: usize) -> Result<&'a Module, NoMemory>
    ensures { (files : List SourceFile) (name : List ℕ) (m : tree.Module) → AreModules files table.now
        → module_named (modules files) name ≡ Some (number, m) → IfOk result (λ of. of.now ≡ m) }
{
    match table.get(number) {
        Some(of) => Ok(of),
        None => Err(NoMemory),
    }
}

/// The number of a module as scopes have it. More modules than such numbers fit into no memory.
pub fn module_number(number: usize) -> Result<u32, NoMemory>
    ensures { IfOk result (λ small. small ≡ number) }
{
    if number < 4_294_967_296 {
        return Ok(number as u32);
    }
    Err(NoMemory)
}

/// What the instances of an item of this number have in common.
fn made_by<'a>(
    alloc: Global,
    table: &Modules<'a>,
    item: u32,
    number: usize,
    params: &'a Conns,
) -> Result<Box<MadeBy<'a>>, NoMemory>
    ensures { (files : List SourceFile) (name : List ℕ) (m : tree.Module) → AreModules files table.now
        → module_named (modules files) name ≡ Some (number, m) → IfOk result (IsMadeBy item number m params.entry) }
{
    let of = module_of(table, number)?;
    let number = module_number(number)?;
    let by = boxed(
        alloc,
        MadeBy {
            item,
            of,
            number,
            params,
        },
    )?;
    Ok(by)
}

/// Goes from an item of this number to the first of the instances of a module that it makes.
pub fn into_instances<'a>(
    alloc: Global,
    table: &Modules<'a>,
    walk: &mut Walk<'a>,
    item: &Item,
    number: u32,
    of: &[u8],
    params: &'a Conns,
    made: &'a [Instance],
) -> Result<(), ElabFault>
    ensures { (files : List SourceFile) (top : List ℕ) (done : Visits) (here : Here) (at : At) (rest : List row.Item) (under : List Task)
        → AreModules files table.now
        → IsBegun (modules files) top done here at item.now rest under walk.old → number ≡ at.item
        → layer item.now ≡ i.Instances of.now params.now made.now
        → HasStepped (modules files) top walk.new result }
{
    match judge_instances(
        alloc,
        table,
        &walk.above,
        walk.names.as_slice(),
        item.place,
        of,
        params,
    ) {
        Ok(found) => {
            let by = made_by(alloc, table, number, found.number, params)?;
            to_instances(walk, by, made)?;
            Ok(())
        }
        Err(fault) => Err(fault),
    }
}
