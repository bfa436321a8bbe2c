ghost use Rattle.std.specs.Prelude.{◌≡◌};
ghost use Rattle.lower_nodes.specs.Faults as spec;

use std::alloc::AllocError;
use thiserror::Error;

/// Why an expression has no typed form: the first of these that holds anywhere in it.
#[derive(Clone, Copy, Debug, PartialEq, Eq, Error)]
pub enum ExpressionFault {
    /// A part is selected of what has none, a memory stands without an index, a range ascends, or a width or a count is below
    /// 1.
    #[error("BadSelect")]
    BadSelect,
    /// A size is past 128.
    #[error("WidthPast128")]
    WidthPast128,
    /// Memory was wanted and not given.
    #[error("NoMemory")]
    NoMemory,
}

impl From<AllocError> for ExpressionFault {
    ghost use Rattle.lower_nodes.specs.declared.fault.ExpressionFault.TheVariants.{NoMemory as no_memory};

    ghost from_gives = { λ _ fault. fault ≡ no_memory };

    fn from(_fault: AllocError) -> ExpressionFault {
        ExpressionFault::NoMemory
    }
}

/// The one that comes first; want of memory comes before all.
pub fn earlier(one: ExpressionFault, other: ExpressionFault) -> ExpressionFault
    ensures { result ≡ spec.earlier one other }
{
    match (one, other) {
        (ExpressionFault::NoMemory, _) | (_, ExpressionFault::NoMemory) => {
            ExpressionFault::NoMemory
        }
        (ExpressionFault::BadSelect, _) | (_, ExpressionFault::BadSelect) => {
            ExpressionFault::BadSelect
        }
        _ => ExpressionFault::WidthPast128,
    }
}
