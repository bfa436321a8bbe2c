ghost use Rattle.std.specs.Prelude.{◌≡◌, ◌+◌, ◌<◌, ◌^◌, length, slice_get, IfOk, IfSome, IfNone, OnSome};
ghost use Rattle.flow_graph.specs.Graph.{IsGraph, IsOnCircle, IsCircleFrom, next_of};

use cov_types::{NoMemory, Rows};
use std::alloc::Global;

/// The successor of a vertex with this number, from 0.
pub fn successor(next: &[Rows<u32>], x: u32, k: usize) -> Option<u32>
    requires { x < length next.now }
    ensures value { result ≡ slice_get (next_of next.now x) k }
    ensures counted { OnSome result (k + 1 < 2 ^ 64) }
{
    next[x as usize].as_slice().get(k).copied()
}

/// A circle that begins with a vertex, if it lies on any.
pub fn circle_from(alloc: Global, next: &[Rows<u32>], p: u32) -> Result<Option<Vec<u32>>, NoMemory>
    requires graph { IsGraph next.now }
    requires start { p < length next.now }
    ensures found { IfOk result (λ a. IfSome a (λ c. IsCircleFrom next.now p c.items)) }
    ensures none { IfOk result (λ a. IfNone a (IsOnCircle next.now p → ⊥)) }
{
    let mut path = vec![in alloc; p]?;
    let mut cursor = vec![in alloc; 0; next.len()]?;
    let mut seen = vec![in alloc; false; next.len()]?;
    'search: while path.len() > 0 {
        let x = path[path.len() - 1];
        let k = cursor[x as usize];
        match successor(next, x, k) {
            Some(y) => {
                cursor[x as usize] = k + 1;
                if y == p {
                    return Ok(Some(path));
                }
                if !seen[y as usize] {
                    seen[y as usize] = true;
                    path.push(y)?;
                }
            }
            None => {
                path.pop();
            }
        }
    }
    Ok(None)
}
