ghost use Rattle.std.specs.Prelude.{◌≡◌, ℕ, ◌<◌, ◌^◌, length, slice_index_or, IfOk, MatchBool, Contains, []};
ghost use Rattle.flow_graph.specs.Graph.{IsGraph, IsOnCircle};
ghost use Rattle.flow_graph.specs.declared.order.Mark.TheVariants.{New};
ghost use Rattle.flow_graph.specs.Listing.{IsWalk, IsWalked};

use crate::circle::successor;
use cov_types::{NoMemory, Rows};
use std::alloc::Global;

/// How far the walk has come with a vertex.
#[derive(Clone, Copy)]
pub enum Mark {
    /// It was not met.
    New,
    /// Its successors are being listed.
    Open,
    /// It is listed.
    Listed,
}

/// Lists what is reached from a new vertex, each after its successors, or says that there is a circle.
fn visit(
    alloc: Global,
    next: &[Rows<u32>],
    root: u32,
    cursor: &mut Vec<usize>,
    marks: &mut Vec<Mark>,
    post: &mut Vec<u32>,
) -> Result<bool, NoMemory>
    requires graph { IsGraph next.now }
    requires start { root < length next.now }
    requires fresh { slice_index_or marks.old.items root New ≡ New }
    requires walk { IsWalk next.now [] cursor.old.items marks.old.items post.old.items }
    ensures { IfOk result (λ met. MatchBool met ((p : ℕ) × IsOnCircle next.now p)
        (IsWalk next.now [] cursor.new.items marks.new.items post.new.items × Contains post.new.items root ×
        ((x : ℕ) → Contains post.old.items x → Contains post.new.items x))) }
{
    let mut path = vec![in alloc; root]?;
    marks[root as usize] = Mark::Open;
    'visit: while path.len() > 0 {
        let x = path[path.len() - 1];
        let k = cursor[x as usize];
        match successor(next, x, k) {
            Some(y) => match marks[y as usize] {
                Mark::Listed => {
                    cursor[x as usize] = k + 1;
                }
                Mark::New => {
                    marks[y as usize] = Mark::Open;
                    path.push(y)?;
                }
                Mark::Open => return Ok(true),
            },
            None => {
                path.pop();
                match marks[x as usize] {
                    Mark::Listed => {}
                    _ => {
                        marks[x as usize] = Mark::Listed;
                        post.push(x)?;
                    }
                }
            }
        }
    }
    Ok(false)
}

/// What a walk over all vertices finds.
#[derive(Drop)]
pub enum Walked {
    /// Each vertex, after its successors.
    All(Vec<u32>),
    /// There is a circle, but none through a vertex below this one.
    CircleFrom(u32),
}

/// Lists each vertex after its successors, or says from which vertex on there is a circle.
pub fn list_all(alloc: Global, next: &[Rows<u32>]) -> Result<Walked, NoMemory>
    requires graph { IsGraph next.now }
    requires few { length next.now < 2 ^ 32 }
    ensures { IfOk result (IsWalked next.now) }
{
    let mut cursor = vec![in alloc; 0; next.len()]?;
    let mut marks = vec![in alloc; Mark::New; next.len()]?;
    let mut post = Vec::new(alloc);
    for root in 0..next.len() {
        match marks[root] {
            Mark::New => {
                if visit(alloc, next, root as u32, &mut cursor, &mut marks, &mut post)? {
                    return Ok(Walked::CircleFrom(root as u32));
                }
            }
            _ => {}
        }
    }
    Ok(Walked::All(post))
}
