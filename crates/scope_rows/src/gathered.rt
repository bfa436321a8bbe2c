ghost use Rattle.std.specs.Prelude.{◌≡◌, [], ◌∷◌, ◌++◌, IfOk, OnOk};
ghost use Rattle.std.specs.List.{flat_map};
ghost use Rattle.scope_meaning.specs.Visits.{Visits};
ghost use Rattle.walk_state.specs.Records.{visits_of};
ghost use Rattle.walk_state.specs.declared.record.Record.TheVariants as its;
ghost use Rattle.scope_rows.specs.Gathered as spec;

use cov_types::{NoMemory, Rows};
use elab_types::{Constant, ScopeItem};
use row_lists::RowLists;
use std::alloc::Global;
use walk_state::{Entered, Record};

/// The scopes that a walk entered, in order, and by their numbers their constants and their rows.
#[derive(Drop)]
pub(crate) struct Gathered {
    pub entered: Rows<Entered>,
    pub constants: RowLists<Constant>,
    pub items: RowLists<ScopeItem>,
}

/// A scope is entered, whose number is how many were before.
fn enter(alloc: Global, to: &mut Gathered, entered: Entered) -> Result<(), NoMemory>
    ensures { OnOk result ((vs : Visits) → spec.IsGathered vs to.old → spec.IsGathered (vs ++ visits_of (its.Enters entered)) to.new) }
{
    if entered.number as usize != to.entered.len() {
        return Err(NoMemory);
    }
    to.entered.push(entered)?;
    to.constants.push(Rows::new(alloc))?;
    to.items.push(Rows::new(alloc))?;
    Ok(())
}

/// A scope has constants.
fn put_constants(
    alloc: Global,
    to: &mut Gathered,
    scope: u32,
    constants: Rows<Constant>,
) -> Result<(), NoMemory>
    ensures { OnOk result ((vs : Visits) → spec.IsGathered vs to.old
        → spec.IsGathered (vs ++ visits_of (its.HasConstants scope constants)) to.new) }
{
    let number = scope as usize;
    if number >= to.constants.len() {
        return Err(NoMemory);
    }
    to.constants.put_all(alloc, number, constants)
}

/// A scope has a row.
fn put_item(to: &mut Gathered, scope: u32, item: u32, inner: Option<u32>) -> Result<(), NoMemory>
    ensures { OnOk result ((vs : Visits) → spec.IsGathered vs to.old → spec.IsGathered (vs ++ visits_of (its.HasRow scope item inner)) to.new) }
{
    let number = scope as usize;
    if number >= to.items.len() {
        return Err(NoMemory);
    }
    to.items.put(number, ScopeItem { item, scope: inner })
}

/// One record more.
fn with_record(alloc: Global, to: &mut Gathered, recorded: Record) -> Result<(), NoMemory>
    ensures { OnOk result ((vs : Visits) → spec.IsGathered vs to.old → spec.IsGathered (vs ++ visits_of recorded) to.new) }
{
    match recorded {
        Record::Enters(entered) => enter(alloc, to, entered),
        Record::HasConstants { scope, constants } => put_constants(alloc, to, scope, constants),
        Record::HasRow { scope, item, inner } => put_item(to, scope, item, inner),
    }
}

/// The scopes of records with what they have.
pub(crate) fn gather(alloc: Global, records: Rows<Record>) -> Result<Gathered, NoMemory>
    ensures { IfOk result (λ all. spec.IsGathered (flat_map visits_of records) all) }
{
    let mut all = Gathered {
        entered: Rows::new(alloc),
        constants: RowLists::new(alloc),
        items: RowLists::new(alloc),
    };
    for recorded in records.into_vec() {
        with_record(alloc, &mut all, recorded)?;
    }
    Ok(all)
}
