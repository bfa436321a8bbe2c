ghost use Rattle.std.specs.Prelude.{◌≡◌, ◌||◌, IfOk, OnOk};
ghost use Rattle.flat_reach.specs.Reach as spec;

use cov_types::{ByteText, NoMemory};
use scope_table::ScopeTable;
use std::alloc::Global;

/// A name of a scope that is handed down to a name of another scope.
#[derive(Drop)]
pub struct Handing {
    pub from: u32,
    pub name: ByteText,
    pub to: u32,
    pub port: ByteText,
}

fn either(one: bool, other: bool) -> bool
    ensures { result ≡ (one || other) }
{
    one || other
}

/// Hands down a name where it is in the table, and says whether that put another name into it.
fn hand(alloc: Global, table: &mut ScopeTable<()>, one: &Handing) -> Result<bool, NoMemory>
    ensures { IfOk result (λ more. spec.IsHanded one.now table.old table.new more) }
{
    if table.contains(one.from, one.name.as_slice()) {
        return table.put(alloc, one.to, one.port.as_slice(), ());
    }
    Ok(false)
}

/// Hands down each name once, and says whether that put another name into the table.
fn hand_all(
    alloc: Global,
    table: &mut ScopeTable<()>,
    handings: &[Handing],
) -> Result<bool, NoMemory>
    ensures { IfOk result (λ more. spec.IsRound handings.now handings.now table.old table.new more) }
{
    let mut more = false;
    for one in handings {
        more = either(more, hand(alloc, table, one)?);
    }
    Ok(more)
}

/// The table with the first name, which is of scope 0, if there is one.
fn first_table(alloc: Global, first: &Option<ByteText>) -> Result<ScopeTable<()>, NoMemory>
    ensures { IfOk result (λ table. spec.IsFirst first.now table) }
{
    let mut table = ScopeTable::new(alloc);
    match first {
        Some(name) => {
            table.put(alloc, 0, name.as_slice(), ())?;
            Ok(table)
        }
        None => Ok(table),
    }
}

/// The names that are reached from a first one of scope 0, by handing down what is reached.
///
/// It goes over the handings until nothing is new: twice, where each is put behind those that reach it.
pub fn reached(
    alloc: Global,
    first: &Option<ByteText>,
    handings: &[Handing],
) -> Result<ScopeTable<()>, NoMemory>
    ensures { IfOk result (λ table. spec.IsReached first.now handings.now table) }
{
    let mut table = first_table(alloc, first)?;
    for _turn in 0..u64::MAX {
        let more = hand_all(alloc, &mut table, handings)?;
        if !more {
            return Ok(table);
        }
    }
    Err(NoMemory)
}
