ghost use Rattle.std.specs.Prelude.{◌≡◌, ℕ, List, Some};
ghost use Rattle.vlog_tree.specs.declared.module.SourceFile as tree;
ghost use Rattle.vlog_tree.specs.declared.module.Module.{Module};
ghost use Rattle.scope_meaning.specs.Heads.{module_named};
ghost use Rattle.scope_meaning.specs.ScopeTrees.{modules, GivesScopes};
ghost use Rattle.elab_modules.specs.Modules.{AreModules};
ghost use Rattle.elab_scope.specs.Walked.{HasWalked};

use crate::walk::walked;
use cov_types::{Place, Rows};
use elab_modules::Modules;
use elab_types::{ElabFault, ScopeTree};
use scope_rows::scope_tree;
use std::alloc::Global;
use vlog_tree::SourceFile;
use walk_entries::begin;
use walk_makes::{module_number, module_of};
use walk_state::Record;

/// What the walk from the module of a number, the top, records.
fn records_from(
    alloc: Global,
    table: &Modules<'_>,
    number: usize,
    top: &[u8],
) -> Result<Rows<Record>, ElabFault>
    ensures { (files : List tree.SourceFile) (m : Module) → AreModules files table.now → module_named (modules files) top.now ≡ Some (number, m)
        → HasWalked (modules files) top.now result }
{
    let of = module_of(table, number)?;
    let first = module_number(number)?;
    let walk = begin(alloc, of, first, table.count(), top)?;
    walked(alloc, table, walk)
}

/// The scopes below the module of a number, the top.
fn tree_from(
    alloc: Global,
    table: &Modules<'_>,
    number: usize,
    top: &[u8],
) -> Result<ScopeTree, ElabFault>
    ensures { (files : List tree.SourceFile) (m : Module) → AreModules files table.now → module_named (modules files) top.now ≡ Some (number, m)
        → GivesScopes files top.now result }
{
    match records_from(alloc, table, number, top) {
        Ok(records) => {
            let scopes = scope_tree(alloc, table, records)?;
            Ok(scopes)
        }
        Err(fault) => Err(fault),
    }
}

/// The scopes below the top, among these modules.
fn scopes_among(alloc: Global, table: &Modules<'_>, top: &[u8]) -> Result<ScopeTree, ElabFault>
    ensures { (files : List tree.SourceFile) → AreModules files table.now → GivesScopes files top.now result }
{
    match table.find(top) {
        Some(found) => tree_from(alloc, table, found.number, top),
        None => Err(ElabFault::NoTop(Place {
            file: 0,
            line: 1,
            column: 1,
        })),
    }
}

/// The scopes of the design of these files below the module named `top`: its scope first, then those inside it in the order
/// of the text, each before those inside it.
///
/// A fault is the first one on the way: a module name that stands twice, at its second place; `NoTop` at line 1 where no
/// module has the name; else what refuses the first place of the walk through the design that something refuses.
pub fn scopes(alloc: Global, files: &Rows<SourceFile>, top: &[u8]) -> Result<ScopeTree, ElabFault>
    ensures { GivesScopes files.now top.now result }
{
    match Modules::new(alloc, files.as_slice()) {
        Ok(table) => scopes_among(alloc, &table, top),
        Err(fault) => Err(fault),
    }
}
