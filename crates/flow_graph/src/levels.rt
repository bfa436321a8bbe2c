ghost use Rattle.std.specs.Prelude.{◌<◌, ◌^◌, length};

use cov_types::{NoMemory, Rows};
use std::alloc::Global;

/// How far a search for strongly connected components has come.
#[derive(Drop)]
struct Search {
    /// The vertices from a root to the one whose successors are followed.
    path: Vec<u32>,
    /// Of each vertex how many successors were followed.
    followed: Vec<u32>,
    /// The vertices that were met and are in no closed component yet, in the order in which they were met.
    pending: Vec<u32>,
    /// When each vertex was met, from 1; 0 where it wasn't.
    met: Vec<u32>,
    /// The earliest time at which an open vertex was met that each is known to lead to.
    low: Vec<u32>,
    /// The component of each vertex, from 1 in the order in which they are closed; 0 where it isn't closed.
    level: Vec<u32>,
    time: u32,
    closed: u32,
}

/// The entry of a vertex, and 0 past the last.
fn entry(entries: &[u32], x: u32) -> u32 {
    match entries.get(x as usize) {
        Some(value) => *value,
        None => 0,
    }
}

/// Writes the entry of a vertex, if it has one.
fn write(entries: &mut [u32], x: u32, value: u32) {
    if (x as usize) < entries.len() {
        entries[x as usize] = value;
    }
}

/// Makes the low time of a vertex no later than this one.
fn lower(search: &mut Search, x: u32, time: u32) {
    if time < entry(search.low.as_slice(), x) {
        write(search.low.as_mut_slice(), x, time);
    }
}

/// Begins with a vertex that is met for the first time.
fn enter(search: &mut Search, x: u32) -> Result<(), NoMemory> {
    let time = search.time.saturating_add(1);
    search.time = time;
    write(search.met.as_mut_slice(), x, time);
    write(search.low.as_mut_slice(), x, time);
    search.path.push(x)?;
    search.pending.push(x)?;
    Ok(())
}

/// Closes the component that began with a vertex.
fn close(search: &mut Search, x: u32) {
    let closed = search.closed.saturating_add(1);
    search.closed = closed;
    for _at in 0..search.pending.len() {
        if let Some(y) = search.pending.pop() {
            write(search.level.as_mut_slice(), y, closed);
            if y == x {
                return;
            }
        }
    }
}

/// Ends with the last vertex of the path, all of whose successors were followed.
fn leave(search: &mut Search, x: u32) {
    search.path.pop();
    let low = entry(search.low.as_slice(), x);
    if low == entry(search.met.as_slice(), x) {
        close(search, x);
    }
    let count = search.path.len();
    if count > 0 {
        let parent = search.path.as_slice()[count - 1];
        lower(search, parent, low);
    }
}

/// Follows an edge to a vertex.
fn follow(search: &mut Search, x: u32, y: u32) -> Result<(), NoMemory> {
    let time = entry(search.met.as_slice(), y);
    if time == 0 {
        return enter(search, y);
    }
    if entry(search.level.as_slice(), y) == 0 {
        lower(search, x, time);
    }
    Ok(())
}

/// The successor of a vertex that is to be followed next.
fn next_edge(next: &[Rows<u32>], followed: &[u32], x: u32) -> Option<u32> {
    let row = next.get(x as usize)?;
    row.as_slice().get(entry(followed, x) as usize).copied()
}

/// Follows all that is reached from a vertex.
fn search_from(next: &[Rows<u32>], search: &mut Search, root: u32) -> Result<(), NoMemory> {
    enter(search, root)?;
    for _turn in 0..u64::MAX {
        let count = search.path.len();
        if count == 0 {
            return Ok(());
        }
        let x = search.path.as_slice()[count - 1];
        match next_edge(next, search.followed.as_slice(), x) {
            Some(y) => {
                let count = entry(search.followed.as_slice(), x).saturating_add(1);
                write(search.followed.as_mut_slice(), x, count);
                follow(search, x, y)?;
            }
            None => leave(search, x),
        }
    }
    Ok(())
}

/// A level for each vertex: those that lie on circles with one another have the same, and an edge to any other leads to a lower one.
/// Contracts say nothing of that: who wants to rely on levels tests them.
pub(crate) fn levels_of(alloc: Global, next: &[Rows<u32>]) -> Result<Vec<u32>, NoMemory>
    requires { length next.now < 2 ^ 32 }
{
    let count = next.len();
    let mut search = Search {
        path: Vec::new(alloc),
        followed: vec![in alloc; 0; count]?,
        pending: Vec::new(alloc),
        met: vec![in alloc; 0; count]?,
        low: vec![in alloc; 0; count]?,
        level: vec![in alloc; 0; count]?,
        time: 0,
        closed: 0,
    };
    for root in 0..next.len() {
        if entry(search.met.as_slice(), root as u32) == 0 {
            search_from(next, &mut search, root as u32)?;
        }
    }
    let Search {
        path: _,
        followed: _,
        pending: _,
        met: _,
        low: _,
        level,
        time: _,
        closed: _,
    } = search;
    Ok(level)
}
