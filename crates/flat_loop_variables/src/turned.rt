ghost use Rattle.std.specs.Prelude.{◌≡◌, ◌||◌, ◌&&◌, ℕ, List, IfOk, OnOk};
ghost use Rattle.std.specs.List.{list_any};
ghost use Rattle.vlog_tree.specs.Trees.{layer};
ghost use Rattle.scope_meaning.specs.Visits.{Visits};
ghost use Rattle.flat_source_meaning.specs.Environments.{is_variable};
ghost use Rattle.flat_source_meaning.specs.Variables.{names_of_loops};
ghost use Rattle.flat_scopes.specs.Meanings.{meaning_by};
ghost use Rattle.flat_spots.specs.Spots.{AreSpotsOf};
ghost use Rattle.flat_reach.specs.Reach.{has};
ghost use Rattle.flat_loop_variables.specs.Turned as spec;

use cov_types::{ByteText, NoMemory, Rows};
use flat_declared::DeclaredKind;
use flat_loops::loop_names;
use flat_scopes::{NameMeaning, PlaceInScope, SeenScopes};
use flat_spots::Spot;
use scope_table::ScopeTable;
use std::alloc::Global;
use vlog_tree::{Item, ItemKind};

fn is_integer(kind: DeclaredKind) -> bool
    ensures { result ≡ spec.is_integer_seen kind }
{
    match kind {
        DeclaredKind::Integer => true,
        DeclaredKind::Input => false,
        DeclaredKind::OutputWire => false,
        DeclaredKind::OutputReg => false,
        DeclaredKind::Wire => false,
        DeclaredKind::Reg => false,
        DeclaredKind::Constant => false,
        DeclaredKind::Genvar => false,
        DeclaredKind::ScopeName => false,
    }
}

/// Puts a variable of a scope into a table, where it is an integer.
fn put_variable(
    alloc: Global,
    table: &mut ScopeTable<()>,
    scope: u32,
    kind: DeclaredKind,
    name: &[u8],
) -> Result<(), NoMemory>
    ensures { OnOk result ((s : ℕ) (n : List ℕ) → has table.new s n
        ≡ (has table.old s n || (spec.is_integer_seen kind && is_variable s n scope name.now))) }
{
    if is_integer(kind) {
        table.put(alloc, scope, name, ())?;
    }
    Ok(())
}

/// Puts what a name means into a table, where it means an integer.
fn put_name(
    alloc: Global,
    table: &mut ScopeTable<()>,
    scopes: &SeenScopes,
    at: PlaceInScope,
    name: &[u8],
) -> Result<(), NoMemory>
    ensures { OnOk result ((s : ℕ) (n : List ℕ) → has table.new s n
        ≡ (has table.old s n || spec.means_integer_by s n name.now (meaning_by scopes.now.scopes.items at name.now))) }
{
    match scopes.meaning(at, name) {
        Some(NameMeaning::Variable { scope, kind }) => {
            put_variable(alloc, table, scope, kind, name)
        }
        Some(NameMeaning::Constant(_)) => Ok(()),
        Some(NameMeaning::Genvar) => Ok(()),
        Some(NameMeaning::NoValue) => Ok(()),
        None => Ok(()),
    }
}

/// The same for some names at a place.
fn put_names(
    alloc: Global,
    table: &mut ScopeTable<()>,
    scopes: &SeenScopes,
    at: PlaceInScope,
    names: &[ByteText],
) -> Result<(), NoMemory>
    ensures { OnOk result ((s : ℕ) (n : List ℕ) → has table.new s n
        ≡ (has table.old s n || list_any (spec.means_integer_at scopes.now.scopes.items at s n) names.now)) }
{
    for name in names {
        put_name(alloc, table, scopes, at, name.as_slice())?;
    }
    Ok(())
}

/// The names in the heads of the loops of a process.
fn names_of(alloc: Global, item: &Item) -> Result<Rows<ByteText>, NoMemory>
    ensures { IfOk result (λ all. all ≡ names_of_loops (layer item.now)) }
{
    match &item.what {
        ItemKind::Initial(body) => loop_names(alloc, body),
        ItemKind::Always { clock: _, body } => loop_names(alloc, body),
        _ => Ok(Rows::new(alloc)),
    }
}

/// Puts the integers that the loops of a spot turn over into a table.
fn put_spot(
    alloc: Global,
    table: &mut ScopeTable<()>,
    scopes: &SeenScopes,
    spot: &Spot<'_>,
) -> Result<(), NoMemory>
    ensures { OnOk result ((s : ℕ) (n : List ℕ) → has table.new s n ≡ (has table.old s n || spec.turns_over scopes.now.scopes.items s n spot.now)) }
{
    match spot {
        Spot::Item { at, item } => {
            let names = names_of(alloc, item)?;
            put_names(alloc, table, scopes, *at, names.as_slice())
        }
        Spot::Port { .. } => Ok(()),
        Spot::Instance { .. } => Ok(()),
    }
}

/// The loop variables of a design, by scope and name: each integer that the head of a loop of some process names, however often the loop turns.
pub fn loop_variables(
    alloc: Global,
    scopes: &SeenScopes,
    spots: &[Spot<'_>],
) -> Result<ScopeTable<()>, NoMemory>
    ensures { IfOk result (λ table. (vs : Visits) → AreSpotsOf scopes.now.scopes.items vs spots.now → spec.AreLoopVariables vs table) }
{
    let mut table = ScopeTable::new(alloc);
    for spot in spots {
        put_spot(alloc, &mut table, scopes, spot)?;
    }
    Ok(table)
}
