ghost use Rattle.std.specs.Prelude.{◌≡◌, ℕ, ◌<◌, List, [], ◌∷◌, ◌++◌, Option, IfOk, OnOk};
ghost use Rattle.std.specs.List.{flat_map};
ghost use Rattle.vlog_tree.specs.declared.item.Item.{Item};
ghost use Rattle.vlog_tree.specs.declared.module.Module.{Module};
ghost use Rattle.scope_meaning.specs.Constants as constants;
ghost use Rattle.scope_meaning.specs.Declared.{declares};
ghost use Rattle.scope_meaning.specs.BlockNames.{inside};
ghost use Rattle.scope_meaning.specs.Scope.{Here, At, Frame, frames};
ghost use Rattle.scope_meaning.specs.Visits.{block_scope, start};
ghost use Rattle.elab_names.specs.Frames.{AreFrames, IsGenvar};
ghost use Rattle.walk_laws.specs.Rest.{Task};
ghost use Rattle.walk_state.specs.Standing.{IsAt, AreLeft};
ghost use Rattle.walk_entries.specs.Blocks as spec;
ghost use Rattle.walk_entries.specs.Blocks.{HasEntered};

use cov_types::{ByteText, NoMemory, Rows};
use elab_names::{PassGenvar, ScopeNames, declared_by_items};
use elab_overrides::Givens;
use elab_types::Constant;
use name_table::NameTable;
use std::alloc::Global;
use std::mem;
use vlog_tree::Item;
use walk_state::{Entered, Left, Record, ScopePlace, Walk};

/// The genvar of a pass as a constant of its block.
fn constant_of(alloc: Global, pass: &PassGenvar) -> Result<Constant, NoMemory>
    ensures { IfOk result (λ c. c ≡ spec.constant_of pass.now) }
{
    let name = ByteText::from_slice(alloc, pass.name.as_slice())?;
    Ok(Constant {
        name,
        value: pass.value.value,
        signed: pass.value.signed,
    })
}

/// Records the genvar of a pass, if there is one, as the first constant of its block.
fn record_pass(
    alloc: Global,
    records: &mut Rows<Record>,
    scope: u32,
    pass: &Option<PassGenvar>,
) -> Result<(), NoMemory>
    ensures { OnOk result (records.new ≡ records.old ++ spec.pass_records scope pass.now) }
{
    match pass {
        Some(pass) => {
            let constant = constant_of(alloc, pass)?;
            let mut constants = Rows::new(alloc);
            constants.push(constant)?;
            records.push(Record::HasConstants { scope, constants })?;
            Ok(())
        }
        None => Ok(()),
    }
}

/// Records a block that is entered from a scope: its row there, its entry, and the genvar of its pass.
fn record_block(
    alloc: Global,
    records: &mut Rows<Record>,
    around: &ScopePlace,
    number: u32,
    item: u32,
    path: &[u8],
    pass: &Option<PassGenvar>,
) -> Result<(), NoMemory>
    ensures { OnOk result (records.new ≡ records.old ++ spec.block_records around.now number item path.now pass.now) }
{
    records.push(Record::HasRow {
        scope: around.number,
        item,
        inner: Some(number),
    })?;
    let path = ByteText::from_slice(alloc, path)?;
    records.push(Record::Enters(Entered {
        number,
        parent: Some(around.number),
        path,
        in_module: around.in_module,
        home: around.home,
    }))?;
    record_pass(alloc, records, number, pass)?;
    Ok(())
}

/// Makes the names of a block visible, inside those that are.
fn open_names(
    alloc: Global,
    names: &mut Vec<ScopeNames>,
    items: &[Item],
    pass: Option<PassGenvar>,
) -> Result<(), NoMemory>
    ensures { OnOk result ((fs : List Frame) (f : Frame) → AreFrames fs names.old.items → f.declared ≡ flat_map declares items.now
        → IsGenvar f.genvar pass → f.known ≡ [] → AreFrames (f ∷ fs) names.new.items) }
{
    let declared = declared_by_items(alloc, items)?;
    let inner = ScopeNames::new(alloc, declared.as_slice(), pass)?;
    names.push(inner)?;
    Ok(())
}

/// The first place in a block that is entered from a scope.
fn place_in(
    alloc: Global,
    around: &ScopePlace,
    number: u32,
    first: u32,
    path: ByteText,
) -> ScopePlace
    ensures { (here : Here) (by at : At) (name : List ℕ) (genvar : Option constants.Constant) (items : List Item)
        → IsAt here by around.now → number ≡ at.next → path ≡ inside here.path name
        → IsAt (block_scope here at name genvar items) (start at.next first) result }
{
    ScopePlace {
        number,
        path,
        in_module: around.in_module,
        home: around.home,
        given: Givens::none(alloc),
        earlier: NameTable::new(alloc),
        item: first,
        construct: 0,
    }
}

/// Enters a generate block of this path, which an item of this number makes; its own items are numbered from `first` on.
pub fn enter_block<'a>(
    alloc: Global,
    walk: &mut Walk<'a>,
    item: u32,
    first: u32,
    path: ByteText,
    pass: Option<PassGenvar>,
    items: &'a [Item],
) -> Result<(), NoMemory>
    requires { walk.old.next < 65536 }
    ensures { (design : List Module) (here : Here) (by at : At) (name : List ℕ) (genvar : Option constants.Constant) (under : List Task)
        → IsAt here by walk.old.here → AreFrames (frames here by) walk.old.names.items → AreLeft design here by walk.old.left under
        → at.next ≡ walk.old.next → at.item ≡ item → frames here at ≡ frames here by → path ≡ inside here.path name → IsGenvar genvar pass
        → OnOk result (HasEntered design here by at name genvar items.now first under walk.old walk.new) }
{
    let number = walk.next;
    record_block(
        alloc,
        &mut walk.records,
        &walk.here,
        number,
        item,
        path.as_slice(),
        &pass,
    )?;
    open_names(alloc, &mut walk.names, items, pass)?;
    let inner = place_in(alloc, &walk.here, number, first, path);
    let around = mem::replace(&mut walk.here, inner);
    walk.left.push(Left::EndOfBlock { around })?;
    walk.left.push(Left::Items { items })?;
    walk.next = number + 1;
    Ok(())
}
