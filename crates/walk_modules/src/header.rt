ghost use Rattle.std.specs.Prelude.{◌≡◌, ℕ, List, [], ◌∷◌, map, Some, None, OnOk};
ghost use Rattle.vlog_tree.specs.declared.item.Item.{Item};
ghost use Rattle.vlog_tree.specs.declared.module.Port.{Port};
ghost use Rattle.vlog_tree.specs.declared.module.Module.{Module};
ghost use Rattle.vlog_tree.specs.Trees.{layer};
ghost use Rattle.scope_meaning.specs.Scope.{Here, At};
ghost use Rattle.scope_meaning.specs.Heads.{declared_constants};
ghost use Rattle.scope_meaning.specs.ScopeTrees.{seen_constant};
ghost use Rattle.scope_meaning.specs.ScopeRules.{refusal};
ghost use Rattle.scope_meaning.specs.Visits.{Visits, sees, a_port, past, with_next, body_scope};
ghost use Rattle.walk_laws.specs.Rest.{Task, a_header, some_ports};
ghost use Rattle.walk_state.specs.Standing.{IsOnWay, IsTaken, IsAt};
ghost use Rattle.walk_modules.specs.Openings.{past_the, IsOpening};

use cov_types::{NoMemory, Rows};
use elab_overrides::Givens;
use elab_types::Constant;
use std::alloc::Global;
use vlog_tree::{Item, Module, Port};
use walk_state::{Left, Record, ScopePlace, Walk};

/// Goes past a parameter of the header of a module, which has these constants; the others are left.
pub fn past_parameter<'a>(
    walk: &mut Walk<'a>,
    of: &'a Module,
    rest: &'a [Item],
    constants: Rows<Constant>,
) -> Result<(), NoMemory>
    ensures { (design : List Module) (top : List ℕ) (done : Visits) (here : Here) (place : At) (a : Item) (under : List Task)
        → IsOpening design top done here place (past place a (map seen_constant constants)) of.now (a_header here of.now (a ∷ rest.now) ∷ under) under walk.old
        → IsTaken design here (with_next place walk.old.next) a → declared_constants here (with_next place walk.old.next) (layer a) ≡ Some
        (map seen_constant constants)
        → OnOk result (IsOnWay design top walk.new) }
{
    walk.records.push(Record::HasConstants {
        scope: walk.here.number,
        constants,
    })?;
    walk.left.push(Left::Header { of, items: rest })?;
    Ok(())
}

/// Goes from the end of the header of a module to its ports.
pub fn to_ports<'a>(walk: &mut Walk<'a>, of: &'a Module) -> Result<(), NoMemory>
    ensures { (design : List Module) (top : List ℕ) (done : Visits) (here : Here) (place : At) (under : List Task)
        → IsOpening design top done here place place of.now (a_header here of.now [] ∷ under) under walk.old
        → OnOk result (IsOnWay design top walk.new) }
{
    let ports = of.ports.as_slice();
    walk.left.push(Left::Ports { of, ports })?;
    Ok(())
}

/// Goes past a port of a module; the others are left.
pub fn past_port<'a>(walk: &mut Walk<'a>, of: &'a Module, rest: &'a [Port]) -> Result<(), NoMemory>
    ensures { (design : List Module) (top : List ℕ) (done : Visits) (here : Here) (place : At) (p : Port) (under : List Task)
        → IsOpening design top done here place (past_the place p) of.now (some_ports here of.now (p ∷ rest.now) ∷ under) under walk.old
        → refusal design (sees (a_port here (with_next place walk.old.next) p)) ≡ None
        → OnOk result (IsOnWay design top walk.new) }
{
    walk.left.push(Left::Ports { of, ports: rest })?;
    Ok(())
}

/// Goes to the first item of a module, where no values are given if the module has a header.
fn to_first_item(alloc: Global, place: &mut ScopePlace, of: &Module)
    ensures { (here : Here) (at : At) → IsAt here at place.old → IsAt (body_scope here of.now) (record at { item = 0 }) place.new }
{
    place.item = 0;
    if of.params.len() > 0 {
        place.given = Givens::none(alloc);
    }
}

/// Goes from the end of the ports of a module to its items.
pub fn to_body<'a>(alloc: Global, walk: &mut Walk<'a>, of: &'a Module) -> Result<(), NoMemory>
    ensures { (design : List Module) (top : List ℕ) (done : Visits) (here : Here) (place : At) (under : List Task)
        → IsOpening design top done here place place of.now (some_ports here of.now [] ∷ under) under walk.old
        → OnOk result (IsOnWay design top walk.new) }
{
    to_first_item(alloc, &mut walk.here, of);
    let items = of.items.as_slice();
    walk.left.push(Left::Items { items })?;
    Ok(())
}
