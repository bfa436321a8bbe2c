ghost use Rattle.std.specs.Prelude.{◌≡◌, ◌≤◌, ◌∷◌, [], ℕ, List, IfOk, OnOk};
ghost use Rattle.std.specs.List.{filter};
ghost use Rattle.scope_meaning.specs.Visits.{Visits, Visit};
ghost use Rattle.flat_source_meaning.specs.Variables.{variables_at};
ghost use Rattle.flat_spots.specs.Spots.{IsSpotOf, AreSpotsOf};
ghost use Rattle.flat_clocks.specs.Handings.{AreClocks};
ghost use Rattle.flat_loop_variables.specs.Turned.{AreLoopVariables};
ghost use Rattle.flat_kept.specs.Kept as spec;

use crate::names::PlaceNames;
use cov_types::{NoMemory, Rows};
use elab_types::FlatVar;
use flat_scopes::{PlaceInScope, SeenScopes};
use flat_spots::Spot;
use flat_variables::{item_variables, port_variable};
use scope_table::ScopeTable;
use std::alloc::Global;
use vlog_tree::{Item, Port};

/// Variables in their order, and the number of each by its scope and name.
#[derive(Drop)]
pub struct KeptVariables {
    pub vars: Rows<FlatVar>,
    pub numbers: ScopeTable<u32>,
}

/// The names of a design that stand for no variable, by scope and name: the clock signals and the loop variables.
#[derive(Clone, Copy)]
struct Apart<'a> {
    clocks: &'a ScopeTable<()>,
    loops: &'a ScopeTable<()>,
}

/// Puts a variable behind others.
fn put(alloc: Global, kept: &mut KeptVariables, var: FlatVar) -> Result<(), NoMemory>
    ensures { OnOk result (spec.IsMore (var ∷ []) kept.old kept.new) }
{
    let count = kept.vars.len();
    if count > 4_294_967_295 {
        return Err(NoMemory);
    }
    let number = count as u32;
    let name = var.name.as_slice();
    kept.numbers.put(alloc, var.scope, name, number)?;
    kept.vars.push(var)?;
    Ok(())
}

/// Puts a variable behind others, unless it is none.
fn put_kept(
    alloc: Global,
    kept: &mut KeptVariables,
    apart: Apart<'_>,
    var: FlatVar,
) -> Result<(), NoMemory>
    ensures { OnOk result (spec.IsMore (filter (spec.is_kept apart.entry.clocks.now apart.entry.loops.now) (var ∷ [])) kept.old kept.new) }
{
    let name = var.name.as_slice();
    let is_clock = apart.clocks.contains(var.scope, name);
    if is_clock {
        return Ok(());
    }
    let is_loop = apart.loops.contains(var.scope, name);
    if is_loop {
        return Ok(());
    }
    put(alloc, kept, var)
}

/// Puts those of some variables that are kept behind others.
fn put_all(
    alloc: Global,
    kept: &mut KeptVariables,
    apart: Apart<'_>,
    vars: Rows<FlatVar>,
) -> Result<(), NoMemory>
    ensures { OnOk result (spec.IsMore (filter (spec.is_kept apart.entry.clocks.now apart.entry.loops.now) vars) kept.old kept.new) }
{
    for var in vars.into_vec() {
        put_kept(alloc, kept, apart, var)?;
    }
    Ok(())
}

/// Puts the variable of a port.
fn put_port(
    alloc: Global,
    kept: &mut KeptVariables,
    apart: Apart<'_>,
    names: PlaceNames<'_>,
    scope: u32,
    port: &Port,
) -> Result<(), NoMemory>
    ensures { (known : spec.Names) → spec.environment_at names.entry ≡ spec.constants known → OnOk result
        (spec.IsMore (filter (spec.is_kept apart.entry.clocks.now apart.entry.loops.now) (spec.port_variable known scope port.now ∷ [])) kept.old kept.new) }
{
    let var = port_variable(alloc, &names, scope, port)?;
    put_kept(alloc, kept, apart, var)
}

/// Puts the variables of an item.
fn put_item(
    alloc: Global,
    kept: &mut KeptVariables,
    apart: Apart<'_>,
    names: PlaceNames<'_>,
    scope: u32,
    item: &Item,
) -> Result<(), NoMemory>
    ensures { (known : spec.Names) → spec.environment_at names.entry ≡ spec.constants known → OnOk result
        (spec.IsMore (filter (spec.is_kept apart.entry.clocks.now apart.entry.loops.now) (spec.declared_variables known scope (spec.layer item.now)))
        kept.old kept.new) }
{
    let vars = item_variables(alloc, &names, scope, item)?;
    put_all(alloc, kept, apart, vars)
}

/// Puts the variables of a spot.
fn put_spot(
    alloc: Global,
    kept: &mut KeptVariables,
    apart: Apart<'_>,
    scopes: &SeenScopes,
    spot: &Spot<'_>,
) -> Result<(), NoMemory>
    ensures { (v : Visit) → IsSpotOf scopes.now.scopes.items v spot.now → OnOk result
        (spec.IsMore (filter (spec.is_kept apart.entry.clocks.now apart.entry.loops.now) (variables_at v)) kept.old kept.new) }
{
    match spot {
        Spot::Port { at, port } => {
            let names = PlaceNames::new(scopes, *at);
            put_port(alloc, kept, apart, names, at.scope, port)
        }
        Spot::Item { at, item } => {
            let names = PlaceNames::new(scopes, *at);
            put_item(alloc, kept, apart, names, at.scope, item)
        }
        Spot::Instance { .. } => Ok(()),
    }
}

/// No variables.
fn no_variables(alloc: Global) -> KeptVariables
    ensures { spec.IsEmpty result }
{
    KeptVariables {
        vars: Rows::new(alloc),
        numbers: ScopeTable::new(alloc),
    }
}

/// The variables of a design in the order of the walk: those that its ports and items declare, but for clock signals and loop variables, which the tables have.
pub fn kept_variables(
    alloc: Global,
    scopes: &SeenScopes,
    spots: &[Spot<'_>],
    clocks: &ScopeTable<()>,
    loops: &ScopeTable<()>,
) -> Result<KeptVariables, NoMemory>
    ensures { IfOk result (λ kept. (vs : Visits) (clock : List ℕ) → AreSpotsOf scopes.now.scopes.items vs spots.now → AreClocks vs clock clocks.now
        → AreLoopVariables vs loops.now → spec.AreKept vs clock kept) }
{
    let apart = Apart { clocks, loops };
    let mut kept = no_variables(alloc);
    for spot in spots {
        put_spot(alloc, &mut kept, apart, scopes, spot)?;
    }
    Ok(kept)
}
