ghost use Rattle.std.specs.Prelude.{◌≡◌, ◌<◌, ◌^◌, IfOk, length};
ghost use Rattle.flow_graph.specs.Graph.{IsGraph};
ghost use Rattle.flow_hubs.specs.Kept.{first_of, IsKept};

use cov_types::{NoMemory, Rows};
use flow_graph::{Sorted, sort};
use std::alloc::Global;

/// Those of some vertices that are among the first so many.
fn first(alloc: Global, vertices: &[u32], count: usize) -> Result<Rows<u32>, NoMemory>
    ensures { IfOk result (λ kept. kept ≡ first_of count vertices.now) }
{
    let mut kept = Vec::new(alloc);
    for x in vertices {
        if (*x as usize) < count {
            kept.push(*x)?;
        }
    }
    Ok(Rows::from_vec(kept))
}

/// An order of the first so many vertices, or the circle of them that begins with the least vertex on any. The vertices behind them are hubs.
pub fn sort_first(alloc: Global, next: &[Rows<u32>], count: usize) -> Result<Sorted, NoMemory>
    requires graph { IsGraph next.now }
    requires few { length next.now < 2 ^ 32 }
    ensures { IfOk result (IsKept count next.now) }
{
    match sort(alloc, next)? {
        Sorted::Order(order) => Ok(Sorted::Order(first(alloc, order.as_slice(), count)?)),
        Sorted::Circle(circle) => Ok(Sorted::Circle(first(alloc, circle.as_slice(), count)?)),
    }
}
