ghost use Rattle.std.specs.Prelude.{◌≡◌, IfOk};
ghost use Rattle.lower_nodes.specs.Operators.{own};
ghost use Rattle.typed_form.specs.TypedExpressions as spec;

use crate::width::Width;
use design_tree::{Index, Typed};
use lower_forms::SizedForm;
use sqlite_items::Boxed;
use std::alloc::{AllocError, Global};

/// How many bits are selected, and where the lowest of them is.
#[derive(Drop)]
pub struct Position {
    pub width: Width,
    pub at: Index,
}

pub(crate) fn index(
    alloc: Global,
    low: u32,
    signed: bool,
    value: Typed,
) -> Result<Index, AllocError>
    ensures { IfOk result (λ i. i ≡ spec.index low signed value) }
{
    let value = Boxed::new(alloc, value)?;
    Ok(Index { low, signed, value })
}

/// An expression by itself as a position, read by its own sign.
pub fn own_index(alloc: Global, low: u32, of: SizedForm) -> Result<Index, AllocError>
    ensures { IfOk result (λ i. i ≡ spec.index low of.signed (own of)) }
{
    let signed = of.signed;
    let value = of.own(alloc)?;
    index(alloc, low, signed, value)
}
