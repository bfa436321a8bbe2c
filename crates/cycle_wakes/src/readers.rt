ghost use Rattle.std.specs.Prelude.{◌≡◌, ℕ, ◌<◌, [], All, IfOk, length};
ghost use Rattle.cycle_wakes.specs.Readers.{AreReaders, HasPut, SpansIn, places_of};

use cov_types::{NoMemory, Rows, Var};
use flow_uses::{Span, Uses};
use std::alloc::Global;

/// An empty row for each variable.
fn empty_rows(alloc: Global, count: usize) -> Result<Vec<Rows<u32>>, NoMemory>
    ensures many { IfOk result (λ readers. length readers.items ≡ count) }
    ensures empty { IfOk result (λ readers. (v : ℕ) → places_of readers.items v ≡ []) }
{
    let mut readers = Vec::with_capacity(alloc, count)?;
    for done in 0..count {
        readers.push(Rows::new(alloc))?;
    }
    Ok(readers)
}

/// Puts a place into the row of the variable of each span.
fn put_place(readers: &mut Vec<Rows<u32>>, spans: &[Span], place: u32) -> Result<(), NoMemory>
    requires { SpansIn (length readers.old.items) spans.now }
    ensures { IfOk result (λ _. HasPut spans.now (length spans.now) place readers.old.items readers.new.items) }
{
    for span in spans {
        readers[span.var as usize].push(place)?;
    }
    Ok(())
}

/// For each variable the places in the order of the processes that read a bit of it.
pub(crate) fn all_readers(
    alloc: Global,
    vars: &[Var],
    uses: &[Uses],
    order: &[u32],
) -> Result<Vec<Rows<u32>>, NoMemory>
    requires order { All (λ p. p < length uses.now) order.now }
    requires spans { All (λ u. SpansIn (length vars.now) u.reads) uses.now }
    ensures { IfOk result (λ readers. AreReaders (length vars.now) uses.now order.now (length order.now) readers.items) }
{
    let mut readers = empty_rows(alloc, vars.len())?;
    for at in 0..order.len() {
        // More places than a number of 32 bits are more than any memory has.
        if at > u32::MAX as usize {
            return Err(NoMemory);
        }
        let p = order[at] as usize;
        put_place(&mut readers, uses[p].reads.as_slice(), at as u32)?;
    }
    Ok(readers)
}
