ghost use Rattle.std.specs.Prelude.{◌≡◌, ◌<◌, ◌≤◌, ◌^◌, ℕ, IfOk, length, slice_index_or};
ghost use Rattle.circuit_run.specs.Kinds.{is_assign};
ghost use Rattle.design_meaning.specs.Flow.{Leads};
ghost use Rattle.flow_graph.specs.Graph.{HasEdge};
ghost use Rattle.flow_hubs.specs.Hubs.{Stands};
ghost use Rattle.flow_uses.specs.Uses.{AreUsesOf, no_uses};
ghost use Rattle.flow_edges.specs.Owning.{AreOwners};
ghost use Rattle.flow_edges.specs.Linking.{AreLinks, AreSelfish, LeadsBy};

use crate::links::Links;
use crate::owners::Owners;
use cov_types::{NoMemory, ProcessKind, Rows};
use design_tree::Design;
use flow_hubs::{Chains, join};
use flow_uses::Uses;
use std::alloc::Global;

/// Whether a process of this kind leads to itself where it reads what it drives.
pub(crate) fn is_assign(kind: ProcessKind) -> bool
    ensures { result ≡ is_assign kind }
{
    match kind {
        ProcessKind::Assign => true,
        _ => false,
    }
}

/// For each process whether it may lead to itself.
fn selfish_of(alloc: Global, design: &Design) -> Result<Vec<bool>, NoMemory>
    ensures { IfOk result (λ selfish. AreSelfish design.now selfish.items) }
{
    let mut selfish = Vec::new(alloc);
    let all = design.processes.as_slice();
    for p in 0..all.len() {
        selfish.push(is_assign(all[p].kind))?;
    }
    Ok(selfish)
}

/// Leads the drivers of each column to its readers.
fn join_columns(
    alloc: Global,
    drivers: &Chains,
    readers: &Chains,
    selfish: &[bool],
    next: &mut Vec<Rows<u32>>,
) -> Result<(), NoMemory>
    requires as_many { length readers.now ≡ length drivers.now }
    requires columns { length drivers.now ≤ 16777216 }
    requires processes { length selfish.now ≤ 65536 }
    requires selfish { length selfish.now ≡ length next.old.items }
    requires drivers { (i x : ℕ) → HasEdge drivers.now i x → x < length next.old.items }
    requires readers { (i x : ℕ) → HasEdge readers.now i x → x < length next.old.items }
    requires ends { (i x : ℕ) → HasEdge next.old.items i x → x < length next.old.items }
    ensures few { IfOk result (λ _. length next.new.items < 2 ^ 32) }
    ensures stands { IfOk result (λ _. Stands (length next.old.items) (LeadsBy next.old.items drivers.now readers.now selfish.now (length drivers.now))
        next.new.items) }
{
    let mut marks = vec![in alloc; false; selfish.len()]?;
    let mut from = Vec::new(alloc);
    let mut to = Vec::new(alloc);
    for at in 0..drivers.len() {
        drivers.read(at, &mut from)?;
        readers.read(at, &mut to)?;
        join(
            alloc,
            next,
            &mut marks,
            from.as_slice(),
            to.as_slice(),
            selfish,
        )?;
    }
    Ok(())
}

/// The processes of a design, which lead to one another directly or through hubs that stand behind them.
pub(crate) fn graph_of(
    alloc: Global,
    design: &Design,
    owners: &Owners,
    links: Links,
    uses: &[Uses],
) -> Result<Vec<Rows<u32>>, NoMemory>
    requires processes { length design.now.processes ≤ 65536 }
    requires owners { AreOwners design.now owners.now }
    requires uses { (p : ℕ) → p < length design.now.processes → AreUsesOf design.now p (slice_index_or uses.now p no_uses) }
    requires links { AreLinks design.now uses.now links }
    ensures few { IfOk result (λ next. length next.items < 2 ^ 32) }
    ensures stands { IfOk result (λ next. Stands (length design.now.processes) (Leads design.now) next.items) }
{
    let selfish = selfish_of(alloc, design)?;
    let Links { mut next, readers } = links;
    join_columns(
        alloc,
        &owners.columns,
        &readers,
        selfish.as_slice(),
        &mut next,
    )?;
    Ok(next)
}
