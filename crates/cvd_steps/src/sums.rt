ghost use Rattle.std.specs.Prelude.{◌≡◌, ◌&&◌, false};
ghost use Rattle.cvd_cursor.specs.Reads.{Reads, Refused, line_marks};
ghost use Rattle.cvd_steps.specs.Bodies.{AreSums, load_of, own_load};
ghost use Rattle.cvd_steps.specs.Adding.{AddsUp};
ghost use Rattle.cvd_text.specs.Lines.{added, is_within};

use cvd_cursor::{Cursor, ReadFault};

/// What lines add up to: bits of storage, steps, nodes of expressions, and bytes that are displayed at most.
#[derive(Clone, Copy, Debug)]
pub struct Sums {
    pub bits: u64,
    pub steps: u64,
    pub nodes: u64,
    pub shown: u64,
}

/// What a line adds.
#[derive(Clone, Copy, Debug)]
pub(crate) struct Own {
    pub(crate) steps: u64,
    pub(crate) nodes: usize,
    pub(crate) shown: usize,
}

/// What lines and one more add up to. A sum that 64 bits don't hold is past its limit.
fn sum_of(before: Sums, own: Own) -> Sums
    ensures { AddsUp (load_of before) (own_load own.steps own.nodes own.shown) (load_of result) }
{
    let steps = before.steps.saturating_add(own.steps);
    let nodes = before.nodes.saturating_add(own.nodes as u64);
    let shown = before.shown.saturating_add(own.shown as u64);
    Sums {
        bits: before.bits,
        steps,
        nodes,
        shown,
    }
}

/// Whether all sums are within the limits of a design.
fn are_within(sums: Sums) -> bool
    ensures { result ≡ is_within (load_of sums) }
{
    sums.bits <= 16_777_216
        && sums.steps <= 4_194_304
        && sums.nodes <= 4_194_304
        && sums.shown <= 16_777_216
}

/// Ends a line that adds to the sums. It stands where its conditions hold and the sums stay within their limits.
pub(crate) fn close(
    cursor: &mut Cursor<'_>,
    holds: bool,
    before: Sums,
    own: Own,
) -> Result<Sums, ReadFault>
    ensures { let load = added (load_of before) (own_load own.steps own.nodes own.shown) in Reads (line_marks (holds && is_within load))
        (λ u held. AreSums load held) cursor.old result cursor.new }
{
    let after = sum_of(before, own);
    let stands = both(holds, are_within(after));
    cursor.end_line(stands)?;
    Ok(after)
}

pub(crate) fn both(one: bool, other: bool) -> bool
    ensures { result ≡ (one && other) }
{
    one && other
}

/// Stops at the end of a line that breaks a condition, or before it.
pub(crate) fn refuse(cursor: &mut Cursor<'_>) -> ReadFault
    ensures { Refused (line_marks false) cursor.old result cursor.new }
{
    match cursor.end_line(false) {
        Ok(()) => unreachable!(),
        Err(fault) => fault,
    }
}
