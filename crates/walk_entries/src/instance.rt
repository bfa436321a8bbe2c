ghost use Rattle.std.specs.Prelude.{◌≡◌, ℕ, ◌<◌, false, List, [], ◌∷◌, ◌++◌, Some, None, IfOk, OnOk, length};
ghost use Rattle.cov_types.specs.declared.place.Place as source;
ghost use Rattle.vlog_tree.specs.declared.item.Instance as tree;
ghost use Rattle.vlog_tree.specs.declared.module.Module.{Module};
ghost use Rattle.scope_meaning.specs.Declared.{module_declares, is_in};
ghost use Rattle.scope_meaning.specs.BlockNames.{inside};
ghost use Rattle.scope_meaning.specs.Heads.{module_named};
ghost use Rattle.scope_meaning.specs.Scope.{Here, At, Frame, Given, frames};
ghost use Rattle.scope_meaning.specs.Visits.{module_scope, start};
ghost use Rattle.elab_overrides.specs.Given.{AreGiven};
ghost use Rattle.elab_names.specs.Frames.{AreFrames, IsGenvar};
ghost use Rattle.walk_laws.specs.Rest.{Task};
ghost use Rattle.walk_state.specs.Standing.{IsAt, AreLeft, IsOnWay};
ghost use Rattle.walk_entries.specs.Instances as spec;
ghost use Rattle.walk_entries.specs.Instances.{HasInstance};

use cov_types::{ByteText, NoMemory, Rows};
use elab_modules::OpenModules;
use elab_names::{ScopeNames, declared_by_module};
use elab_overrides::Givens;
use name_table::NameTable;
use std::alloc::Global;
use std::mem;
use vlog_tree::Module;
use walk_state::{Entered, Left, MadeBy, Record, ScopePlace, Stack, Walk};

/// Records an instance: its row in the scope around it, and the entry of its module.
fn record_instance(
    alloc: Global,
    records: &mut Rows<Record>,
    around: &ScopePlace,
    number: u32,
    item: u32,
    path: &[u8],
    in_module: u32,
) -> Result<(), NoMemory>
    ensures { OnOk result (records.new ≡ records.old ++ spec.instance_records around.now number item path.now in_module) }
{
    records.push(Record::HasRow {
        scope: around.number,
        item,
        inner: Some(number),
    })?;
    let path = ByteText::from_slice(alloc, path)?;
    records.push(Record::Enters(Entered {
        number,
        parent: Some(around.number),
        path,
        in_module,
        home: number,
    }))?;
    Ok(())
}

/// The names of the scope of a module.
fn names_of(alloc: Global, of: &Module) -> Result<Vec<ScopeNames>, NoMemory>
    ensures { IfOk result (λ names. (f : Frame) → f.declared ≡ module_declares of.now → IsGenvar f.genvar None → f.known ≡ []
        → AreFrames (f ∷ []) names.items) }
{
    let declared = declared_by_module(alloc, of)?;
    let scope = ScopeNames::new(alloc, declared.as_slice(), None)?;
    let mut names = Vec::new(alloc);
    names.push(scope)?;
    Ok(names)
}

/// The first place in the scope of a module of a number, entered with these values for its parameters.
fn place_in(alloc: Global, number: u32, in_module: u32, path: ByteText, given: Givens) -> ScopePlace
    ensures { (above : List (List ℕ)) (values : List Given) (m : Module) → AreGiven values given
        → IsAt (module_scope number path above values in_module m) (start number 0) result }
{
    ScopePlace {
        number,
        path,
        in_module,
        home: number,
        given,
        earlier: NameTable::new(alloc),
        item: 0,
        construct: 0,
    }
}

/// Enters the module of an instance, whose scope has this path and these values for its parameters.
pub fn enter_instance<'a>(
    alloc: Global,
    walk: &mut Walk<'a>,
    by: MadeBy<'a>,
    path: ByteText,
    given: Givens,
) -> Result<(), NoMemory>
    requires { walk.old.next < 65536 }
    ensures { (design : List Module) (here : Here) (behind place : At) (p : source.Place) (one : tree.Instance) (values : List Given) (under : List Task)
        → IsAt here behind walk.old.here → AreFrames (frames here behind) walk.old.names.items → AreLeft design here behind walk.old.left under
        → place.item ≡ by.entry.item → path ≡ inside here.path one.name.name → AreGiven values given
        → module_named design by.entry.of.now.name ≡ Some (by.entry.number, by.entry.of.now) → is_in by.entry.of.now.name here.above ≡ false
        → OnOk result (HasInstance design here behind place p one values by.entry.number by.entry.of.now under walk.old walk.new) }
{
    let number = walk.next;
    record_instance(
        alloc,
        &mut walk.records,
        &walk.here,
        number,
        by.item,
        path.as_slice(),
        by.number,
    )?;
    let inner = names_of(alloc, by.of)?;
    let place = place_in(alloc, number, by.number, path, given);
    let names = mem::replace(&mut walk.names, inner);
    let around = mem::replace(&mut walk.here, place);
    walk.above.enter(by.number as usize);
    walk.left.push(Left::EndOfModule {
        around,
        names,
        number: by.number,
    })?;
    let items = by.of.params.as_slice();
    walk.left.push(Left::Header { of: by.of, items })?;
    walk.next = number + 1;
    Ok(())
}

/// The entry of the top module, as all that is recorded.
fn record_top(alloc: Global, number: u32, top: &[u8]) -> Result<Rows<Record>, NoMemory>
    ensures { IfOk result (λ records. records ≡ spec.top_records number top.now) }
{
    let path = ByteText::from_slice(alloc, top)?;
    let mut records = Rows::new(alloc);
    records.push(Record::Enters(Entered {
        number: 0,
        parent: None,
        path,
        in_module: number,
        home: 0,
    }))?;
    Ok(records)
}

/// Where a walk begins: before the header of the top module, which has this number among so many modules.
pub fn begin<'a>(
    alloc: Global,
    of: &'a Module,
    number: u32,
    count: usize,
    top: &[u8],
) -> Result<Walk<'a>, NoMemory>
    ensures { (design : List Module) → length design ≡ count → module_named design top.now ≡ Some (number, of.now)
        → IfOk result (IsOnWay design top.now) }
{
    let names = names_of(alloc, of)?;
    let path = ByteText::from_slice(alloc, top)?;
    let records = record_top(alloc, number, top)?;
    let mut above = OpenModules::none(alloc, count)?;
    above.enter(number as usize);
    let items = of.params.as_slice();
    let mut left = Stack::new(alloc);
    left.push(Left::Header { of, items })?;
    let here = place_in(alloc, 0, number, path, Givens::none(alloc));
    Ok(Walk {
        next: 1,
        here,
        names,
        above,
        left,
        records,
    })
}
