//! Nodes of expressions, with what is in them on the heap.

ghost use Rattle.std.specs.Prelude.{◌≡◌, ◌∷◌, [], IfOk};

use sqlite_items::{Boxed, Items};
use std::alloc::{AllocError, Global};
use vlog_tree::{Expr, Select};

/// A part of `base`.
pub(crate) fn selected(alloc: Global, base: Expr, select: Select) -> Result<Expr, AllocError>
    ensures { IfOk result (λ e. e ≡ Expr.Select base select) }
{
    Ok(Expr::Select {
        base: Boxed::new(alloc, base)?,
        select,
    })
}

/// A list of one.
pub(crate) fn only(alloc: Global, item: Expr) -> Result<Items<Expr>, AllocError>
    ensures { IfOk result (λ all. all ≡ item ∷ []) }
{
    let mut all = Items::new(alloc);
    all.push(item)?;
    Ok(all)
}
