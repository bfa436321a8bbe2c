ghost use Rattle.std.specs.Prelude.{◌≡◌, ◌<◌, ◌^◌, ℕ, All, IfOk, filter, length, slice_index_or};
ghost use Rattle.circuit_run.specs.Kinds.{settles};
ghost use Rattle.design_meaning.specs.Processes.{kind_of};
ghost use Rattle.design_meaning.specs.Flow.{Leads};
ghost use Rattle.design_meaning.specs.Valid.{IsValidDesign};
ghost use Rattle.flow_hubs.specs.Hubs.{Stands};
ghost use Rattle.flow_uses.specs.Uses.{AreUsesOf, no_uses};
ghost use Rattle.flow_edges.specs.Ordering.{IsOrdering};

use crate::joined::graph_of;
use crate::links::links_of;
use crate::owners::{owners_of, settles};
use cov_types::{NoMemory, Rows};
use design_tree::Design;
use flow_hubs::{Sorted, sort_first};
use flow_uses::Uses;
use std::alloc::Global;

/// The processes, which lead to one another directly or through hubs that stand behind them.
fn next_of(alloc: Global, design: &Design, uses: &[Uses]) -> Result<Vec<Rows<u32>>, NoMemory>
    requires valid { IsValidDesign design.now }
    requires many { length uses.now ≡ length design.now.processes }
    requires uses { (p : ℕ) → p < length design.now.processes → AreUsesOf design.now p (slice_index_or uses.now p no_uses) }
    ensures few { IfOk result (λ next. length next.items < 2 ^ 32) }
    ensures stands { IfOk result (λ next. Stands (length design.now.processes) (Leads design.now) next.items) }
{
    let owners = owners_of(alloc, design, uses)?;
    let links = links_of(alloc, design, &owners, uses)?;
    graph_of(alloc, design, &owners, links, uses)
}

/// The listed processes that settle, in this order.
fn settling(alloc: Global, design: &Design, order: &[u32]) -> Result<Rows<u32>, NoMemory>
    requires { All (λ p. p < length design.now.processes) order.now }
    ensures { IfOk result (λ kept. kept ≡ filter (λ p. settles (kind_of design.now p)) order.now) }
{
    let mut kept = Vec::new(alloc);
    for p in order {
        if settles(design.processes.as_slice()[*p as usize].kind) {
            kept.push(*p)?;
        }
    }
    Ok(Rows::from_vec(kept))
}

/// An order of the assignments and combinational processes of a design in which each bit is written before another of
/// them reads it, where none lies on a circle; else the circle that begins with the least process on any, of which each drives what the next reads.
///
/// It takes what the processes use, as `all_uses` gives it. A memory at a computed word costs its places and not its words, and its drivers and
/// readers cost their sum.
pub fn order_of(alloc: Global, design: &Design, uses: &[Uses]) -> Result<Sorted, NoMemory>
    requires valid { IsValidDesign design.now }
    requires many { length uses.now ≡ length design.now.processes }
    requires uses { (p : ℕ) → p < length design.now.processes → AreUsesOf design.now p (slice_index_or uses.now p no_uses) }
    ensures { IfOk result (IsOrdering design.now) }
{
    let next = next_of(alloc, design, uses)?;
    match sort_first(alloc, next.as_slice(), design.processes.len())? {
        Sorted::Order(order) => Ok(Sorted::Order(settling(alloc, design, order.as_slice())?)),
        Sorted::Circle(circle) => Ok(Sorted::Circle(circle)),
    }
}
