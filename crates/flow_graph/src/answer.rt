ghost use Rattle.std.specs.Prelude.{ℕ, ◌<◌, ◌^◌, ◌↔◌, length, IfOk, IsTrue, All};
ghost use Rattle.flow_graph.specs.Graph.{IsGraph, IsLeastCircle, IsOnCircle};
ghost use Rattle.flow_graph.specs.Verdict.{IsSorted};

use crate::falling::{are_falling, circle_at};
use crate::levels::levels_of;
use crate::order::{Walked, list_all};
use cov_types::{NoMemory, Rows};
use std::alloc::Global;

/// What a graph has: an order or a circle.
#[derive(Debug, Drop)]
pub enum Sorted {
    /// Each vertex, after all those that have an edge to it.
    Order(Rows<u32>),
    /// A circle that begins with the least vertex on any.
    Circle(Rows<u32>),
}

/// Whether all of a row are numbers of vertices.
fn is_row(row: &Rows<u32>, vertices: usize) -> bool
    ensures { IsTrue result ↔ All (λ q. q < vertices) row.now }
{
    row.as_slice().iter().all(|q| (*q as usize) < vertices)
}

/// Whether each successor is a vertex.
pub fn is_graph(next: &[Rows<u32>]) -> bool
    ensures { IsTrue result ↔ IsGraph next.now }
{
    next.iter().all(|row| is_row(row, next.len()))
}

/// The circle that begins with the least vertex on any, where none lies below a vertex.
fn least_circle(alloc: Global, next: &[Rows<u32>], from: u32) -> Result<Rows<u32>, NoMemory>
    requires graph { IsGraph next.now }
    requires few { length next.now < 2 ^ 32 }
    requires some { (p : ℕ) × IsOnCircle next.now p }
    requires none { (q : ℕ) → q < from → IsOnCircle next.now q → ⊥ }
    ensures { IfOk result (IsLeastCircle next.now) }
{
    let found = levels_of(alloc, next)?;
    let levels = found.as_slice();
    let falling = are_falling(next, levels);
    for p in from as usize..next.len() {
        if let Some(circle) = circle_at(alloc, next, levels, falling, p as u32)? {
            return Ok(Rows::from_vec(circle));
        }
    }
    unreachable!()
}

/// An order of the vertices in which each edge leads on, or the circle that begins with the least vertex on any. Its time grows with the
/// vertices and edges.
pub fn sort(alloc: Global, next: &[Rows<u32>]) -> Result<Sorted, NoMemory>
    requires graph { IsGraph next.now }
    requires few { length next.now < 2 ^ 32 }
    ensures { IfOk result (IsSorted next.now) }
{
    match list_all(alloc, next)? {
        Walked::All(mut post) => {
            post.reverse();
            Ok(Sorted::Order(Rows::from_vec(post)))
        }
        Walked::CircleFrom(from) => {
            let circle = least_circle(alloc, next, from)?;
            Ok(Sorted::Circle(circle))
        }
    }
}
