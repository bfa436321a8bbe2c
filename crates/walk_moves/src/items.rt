ghost use Rattle.std.specs.Prelude.{◌≡◌, ℕ, ◌+◌, true, false, List, [], ◌∷◌, map, Bool, Some, None, IfOk, OnOk, ℤ};
ghost use Rattle.vlog_tree.specs.declared.item.Item.{Item};
ghost use Rattle.vlog_tree.specs.declared.item.ItemKind.TheOpen as i;
ghost use Rattle.vlog_tree.specs.declared.item.ParamForm.{ParamForm};
ghost use Rattle.vlog_tree.specs.declared.item.ParamName.{ParamName};
ghost use Rattle.vlog_tree.specs.declared.module.Module.{Module};
ghost use Rattle.vlog_tree.specs.Trees.{layer};
ghost use Rattle.scope_meaning.specs.Declared.{is_plain, is_in};
ghost use Rattle.scope_meaning.specs.Scope.{Here, At};
ghost use Rattle.scope_meaning.specs.Heads.{GenLoop, module_named, names_here, names_in_pass, genvar_value, constants_of};
ghost use Rattle.scope_meaning.specs.ScopeTrees.{seen_constant};
ghost use Rattle.scope_meaning.specs.ScopeRules.{refusal};
ghost use Rattle.scope_meaning.specs.Visits.{Visits, past, with_next};
ghost use Rattle.walk_laws.specs.Rest.{Task, some_items, a_step_of};
ghost use Rattle.walk_laws.proofs.Steps.{step_seen};
ghost use Rattle.walk_state.specs.Standing.{IsOnWay, IsMidway, IsTaken, IsLoop};

use cov_types::{NoMemory, Rows};
use elab_types::Constant;
use vlog_tree::{Instance, Item};
use walk_state::{Left, LoopPasses, MadeBy, Record, Walk};

/// Goes past an item of this number that makes no scope and no constant: it has one row.
pub fn past_plain(walk: &mut Walk<'_>, item: u32) -> Result<(), NoMemory>
    ensures { (design : List Module) (top : List ℕ) (done : Visits) (here : Here) (place : At) (a : Item) (rest : List Item) (under : List Task)
        → IsMidway design top done here place (past place a []) (some_items here (a ∷ rest) ∷ under) (some_items here rest ∷ under) walk.old
        → item ≡ place.item → IsTaken design here (with_next place walk.old.next) a → is_plain (layer a) ≡ true
        → OnOk result (IsOnWay design top walk.new) }
{
    walk.records.push(Record::HasRow {
        scope: walk.here.number,
        item,
        inner: None,
    })?;
    Ok(())
}

/// Goes past a declaration of parameters of this number, which has one row and these constants.
pub fn past_parameters(
    walk: &mut Walk<'_>,
    item: u32,
    constants: Rows<Constant>,
) -> Result<(), NoMemory>
    ensures { (design : List Module) (top : List ℕ) (done : Visits) (here : Here) (place : At) (a : Item) (rest : List Item) (under : List Task)
        (local : Bool) (form : ParamForm) (names : List ParamName)
        → IsMidway design top done here place (past place a (map seen_constant constants)) (some_items here (a ∷ rest) ∷ under)
        (some_items here rest ∷ under) walk.old
        → item ≡ place.item → IsTaken design here (with_next place walk.old.next) a → layer a ≡ i.Parameter local form names
        → constants_of here (with_next place walk.old.next) local form names ≡ Some (map seen_constant constants)
        → OnOk result (IsOnWay design top walk.new) }
{
    let scope = walk.here.number;
    walk.records.push(Record::HasRow {
        scope,
        item,
        inner: None,
    })?;
    walk.records
        .push(Record::HasConstants { scope, constants })?;
    Ok(())
}

/// Goes from an item to the first of the instances that it makes.
pub fn to_instances<'a>(
    walk: &mut Walk<'a>,
    by: Box<MadeBy<'a>>,
    made: &'a [Instance],
) -> Result<(), NoMemory>
    ensures { (design : List Module) (top : List ℕ) (done : Visits) (here : Here) (place : At) (a : Item) (rest : List Item) (under : List Task) (of : List ℕ)
        → IsMidway design top done here place (past place a []) (some_items here (a ∷ rest) ∷ under) (some_items here rest ∷ under) walk.old
        → IsTaken design here (with_next place walk.old.next) a → layer a ≡ i.Instances of by.entry.value.params.now made.now
        → module_named design of ≡ Some (by.entry.value.number, by.entry.value.of.now) → of ≡ by.entry.value.of.now.name → is_in of here.above ≡ false
        → by.entry.value.item ≡ place.item
        → OnOk result (IsOnWay design top walk.new) }
{
    walk.left.push(Left::Instances { by, made })?;
    Ok(())
}

/// Goes from an item to the first turn of its generate loop, where its genvar has this value.
pub fn to_loop<'a>(
    walk: &mut Walk<'a>,
    passes: Box<LoopPasses<'a>>,
    value: i32,
) -> Result<(), NoMemory>
    ensures { (design : List Module) (top : List ℕ) (done : Visits) (here : Here) (place : At) (a : Item) (rest : List Item) (under : List Task) (l : GenLoop)
        → IsMidway design top done here place (past place a []) (some_items here (a ∷ rest) ∷ under) (some_items here rest ∷ under) walk.old
        → IsTaken design here (with_next place walk.old.next) a → layer a ≡ i.Loop l.name l.from l.test l.step_name l.step l.block l.places l.body
        → genvar_value (names_here here place) l.from ≡ Some value → IsLoop place a l passes.entry.value
        → OnOk result (IsOnWay design top walk.new) }
{
    walk.left.push(Left::Turn { passes, value })?;
    Ok(())
}

/// Goes from behind the block of a pass of a generate loop to the next turn, where its genvar has this value.
pub fn to_turn<'a>(
    walk: &mut Walk<'a>,
    passes: Box<LoopPasses<'a>>,
    value: i32,
) -> Result<(), NoMemory>
    ensures { (design : List Module) (top : List ℕ) (done : Visits) (here : Here) (place : At) (a : Item) (l : GenLoop) (n : ℤ) (under : List Task)
        → IsMidway design top done here (past place a []) (past place a []) (a_step_of here place a l n ∷ under) under walk.old
        → refusal design (step_seen here place a l n) ≡ None → genvar_value (names_in_pass here place l.name n) l.step ≡ Some value
        → IsLoop place a l passes.entry.value
        → OnOk result (IsOnWay design top walk.new) }
{
    walk.left.push(Left::Turn { passes, value })?;
    Ok(())
}

/// The next number.
pub fn number_after(number: u32) -> Result<u32, NoMemory>
    ensures { IfOk result (λ next. next ≡ number + 1) }
{
    match number.checked_add(1) {
        Some(next) => Ok(next),
        None => Err(NoMemory),
    }
}

/// Goes from a `generate` region to the first of its items.
pub fn to_region<'a>(walk: &mut Walk<'a>, items: &'a [Item]) -> Result<(), NoMemory>
    ensures { (design : List Module) (top : List ℕ) (done : Visits) (here : Here) (place : At) (a : Item) (rest : List Item) (under : List Task)
        → IsMidway design top done here place place (some_items here (a ∷ rest) ∷ under) (some_items here rest ∷ under) walk.old
        → layer a ≡ i.Generate items.now → OnOk result (IsOnWay design top walk.new) }
{
    let item = number_after(walk.here.item)?;
    walk.here.item = item;
    walk.left.push(Left::Items { items })?;
    Ok(())
}
