ghost use Rattle.std.specs.Prelude.{◌≡◌, ◌≤◌, ◌<◌, ◌^◌, ℕ, true, length, slice_index, IfOk, IfSome, IfNone};
ghost use Rattle.flow_graph.specs.Graph.{IsCircleFrom, IsGraph, IsOnCircle};
ghost use Rattle.flow_graph.specs.Falling.{AreFalling};

use crate::circle::circle_from;
use cov_types::{NoMemory, Rows};
use std::alloc::Global;

/// The level of a vertex, and 0 past the last.
fn level_at(levels: &[u32], x: u32) -> u32
    ensures { result ≡ slice_index levels.now x }
{
    if (x as usize) < levels.len() {
        return levels[x as usize];
    }
    0
}

/// Whether the levels of all of a row are at most this.
fn are_at_most(row: &[u32], levels: &[u32], most: u32) -> bool
    ensures { result ≡ true → (k : ℕ) → k < length row.now → slice_index levels.now (slice_index row.now k) ≤ most }
{
    for y in row {
        if level_at(levels, *y) > most {
            return false;
        }
    }
    true
}

/// Whether no edge leads to a higher level.
pub(crate) fn are_falling(next: &[Rows<u32>], levels: &[u32]) -> bool
    requires { length next.now < 2 ^ 32 }
    ensures { result ≡ true → AreFalling next.now levels.now }
{
    for x in 0..next.len() {
        if !are_at_most(next[x].as_slice(), levels, level_at(levels, x as u32)) {
            return false;
        }
    }
    true
}

/// Whether each edge of a vertex leads to a lower level.
fn only_falls(next: &[Rows<u32>], levels: &[u32], p: u32) -> bool
    requires { p < length next.now }
    ensures { result ≡ true → AreFalling next.now levels.now → IsOnCircle next.now p → ⊥ }
{
    let own = level_at(levels, p);
    own > 0 && are_at_most(next[p as usize].as_slice(), levels, own - 1)
}

/// A circle that begins with a vertex, if it lies on any. Where no edge leads to a higher level, there is no search from a vertex whose edges all
/// lead to lower ones.
pub(crate) fn circle_at(
    alloc: Global,
    next: &[Rows<u32>],
    levels: &[u32],
    falling: bool,
    p: u32,
) -> Result<Option<Vec<u32>>, NoMemory>
    requires graph { IsGraph next.now }
    requires start { p < length next.now }
    requires levels { falling ≡ true → AreFalling next.now levels.now }
    ensures found { IfOk result (λ a. IfSome a (λ c. IsCircleFrom next.now p c.items)) }
    ensures none { IfOk result (λ a. IfNone a (IsOnCircle next.now p → ⊥)) }
{
    if falling && only_falls(next, levels, p) {
        return Ok(None);
    }
    circle_from(alloc, next, p)
}
