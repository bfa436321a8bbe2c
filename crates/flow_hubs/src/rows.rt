ghost use Rattle.std.specs.Prelude.{◌≡◌, ◌<◌, ℕ, IsTrue, IfOk, Contains, length};
ghost use Rattle.flow_graph.specs.Graph.{HasEdge};
ghost use Rattle.flow_hubs.specs.Adding.{Adds};

use cov_types::{NoMemory, Rows};
use std::alloc::Global;

/// So many empty rows.
pub fn no_rows(alloc: Global, count: usize) -> Result<Vec<Rows<u32>>, NoMemory>
    ensures many { IfOk result (λ rows. length rows.items ≡ count) }
    ensures empty { IfOk result (λ rows. (i x : ℕ) → HasEdge rows.items i x → ⊥) }
{
    let mut rows = Vec::with_capacity(alloc, count)?;
    for _at in 0..count {
        rows.push(Rows::new(alloc))?;
    }
    Ok(rows)
}

/// Whether a row ends with a number.
fn ends_with(row: &[u32], number: u32) -> bool
    ensures { IsTrue result → Contains row.now number }
{
    let count = row.len();
    count > 0 && row[count - 1] == number
}

/// Puts a number into a row where it is not the last of it.
pub fn note(rows: &mut Vec<Rows<u32>>, at: usize, number: u32) -> Result<(), NoMemory>
    requires { at < length rows.old.items }
    ensures { IfOk result (λ _. Adds rows.old.items rows.new.items (λ i x. (i ≡ at) × (x ≡ number))) }
{
    if ends_with(rows[at].as_slice(), number) {
        return Ok(());
    }
    rows[at].push(number)?;
    Ok(())
}
