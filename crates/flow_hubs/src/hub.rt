ghost use Rattle.std.specs.Prelude.{◌≡◌, ◌≢◌, ◌≤◌, ◌<◌, ◌⊎◌, ◌^◌, All, IfOk, Contains, length};
ghost use Rattle.flow_hubs.specs.Adding.{Adds};
ghost use Rattle.flow_hubs.specs.Hubs.{AtHub, IsClear, Joins, JoinsNew, JoinsShared};

use crate::rows::note;
use crate::sharing::shared;
use cov_types::{NoMemory, Rows};
use std::alloc::Global;

/// Leads a vertex to another one; none to itself.
fn lead(next: &mut Vec<Rows<u32>>, from: u32, to: u32) -> Result<(), NoMemory>
    requires { from < length next.old.items }
    ensures { IfOk result (λ _. Adds next.old.items next.new.items (λ i x. (i ≢ x) × (i ≡ from) × (x ≡ to))) }
{
    if from == to {
        return Ok(());
    }
    note(next, from as usize, to)?;
    Ok(())
}

/// Leads each driver to the hub.
fn lead_in(next: &mut Vec<Rows<u32>>, drivers: &[u32], hub: u32) -> Result<(), NoMemory>
    requires { All (λ p. p < length next.old.items) drivers.now }
    ensures { IfOk result (λ _. Adds next.old.items next.new.items (λ i x. (i ≢ x) × Contains drivers.now i × (x ≡ hub))) }
{
    for p in drivers {
        lead(next, *p, hub)?;
    }
    Ok(())
}

/// Leads the hub to each reader.
fn lead_out(next: &mut Vec<Rows<u32>>, hub: u32, readers: &[u32]) -> Result<(), NoMemory>
    requires { hub < length next.old.items }
    ensures { IfOk result (λ _. Adds next.old.items next.new.items (λ i x. (i ≢ x) × (i ≡ hub) × Contains readers.now x)) }
{
    for q in readers {
        lead(next, hub, *q)?;
    }
    Ok(())
}

/// Leads each driver to the hub, and the hub to each reader.
fn lead_through(
    next: &mut Vec<Rows<u32>>,
    drivers: &[u32],
    readers: &[u32],
    hub: u32,
) -> Result<(), NoMemory>
    requires drivers { All (λ p. p < length next.old.items) drivers.now }
    requires hub { hub < length next.old.items }
    ensures { IfOk result (λ _. Adds next.old.items next.new.items (AtHub drivers.now readers.now hub)) }
{
    lead_in(next, drivers, hub)?;
    lead_out(next, hub, readers)?;
    Ok(())
}

/// Leads each driver to each reader, of which there are some, by a vertex that drives and reads, or else by a new one.
fn join_some(
    alloc: Global,
    next: &mut Vec<Rows<u32>>,
    marks: &mut Vec<bool>,
    drivers: &[u32],
    readers: &[u32],
    selfish: &[bool],
) -> Result<(), NoMemory>
    requires clear { IsClear marks.old.items }
    requires drivers { All (λ p. p < length marks.old.items) drivers.now }
    requires readers { All (λ p. p < length marks.old.items) readers.now }
    requires selfish { length selfish.now ≡ length marks.old.items }
    requires many { length marks.old.items ≤ length next.old.items }
    requires few { length next.old.items < 2 ^ 32 }
    ensures marks { length marks.new.items ≡ length marks.old.items }
    ensures clear { IsClear marks.new.items }
    ensures joins { IfOk result (λ _. JoinsShared next.old.items next.new.items drivers.now readers.now selfish.now ⊎ JoinsNew next.old.items next.new.items
        drivers.now readers.now selfish.now) }
{
    match shared(marks, drivers, readers, selfish) {
        Some(hub) => lead_through(next, drivers, readers, hub),
        None => {
            let hub = next.len() as u32;
            next.push(Rows::new(alloc))?;
            lead_through(next, drivers, readers, hub)
        }
    }
}

/// Leads each driver to each reader, and a vertex to itself only where it may. The hub is a vertex that drives and reads, or else a new
/// one. The marks, one for each of the vertices that may be named, are clear before and after.
pub fn join(
    alloc: Global,
    next: &mut Vec<Rows<u32>>,
    marks: &mut Vec<bool>,
    drivers: &[u32],
    readers: &[u32],
    selfish: &[bool],
) -> Result<(), NoMemory>
    requires clear { IsClear marks.old.items }
    requires drivers { All (λ p. p < length marks.old.items) drivers.now }
    requires readers { All (λ p. p < length marks.old.items) readers.now }
    requires selfish { length selfish.now ≡ length marks.old.items }
    requires many { length marks.old.items ≤ length next.old.items }
    requires few { length next.old.items < 2 ^ 32 }
    ensures marks { length marks.new.items ≡ length marks.old.items }
    ensures clear { IsClear marks.new.items }
    ensures joins { IfOk result (λ _. Joins next.old.items next.new.items drivers.now readers.now selfish.now) }
{
    if drivers.len() == 0 || readers.len() == 0 {
        return Ok(());
    }
    join_some(alloc, next, marks, drivers, readers, selfish)
}
