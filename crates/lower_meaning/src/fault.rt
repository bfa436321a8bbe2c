use cov_types::{LimitName, NoMemory, Place};
use thiserror::Error;

/// Why a flat source has no design: the first refusal in the order of processes and statements, and at one statement the
/// earlier of these.
///
/// The place is the first token of the statement or item.
#[derive(Clone, Copy, Debug, PartialEq, Eq, Error)]
pub enum LowerFault {
    /// A select is of a scalar or a constant, a memory stands without an index, a word has two selects of which the second
    /// isn't of a vector, a part range ascends, or a width or the count of a replication is below 1.
    #[error("BadSelect")]
    BadSelect(Place),
    /// The size of an expression is past 128.
    #[error("WidthPast128")]
    WidthPast128(Place),
    /// There are too many nodes, or the displayed texts together are too long.
    #[error("Limit")]
    Limit(LimitName),
    /// Memory was wanted and not given.
    #[error("NoMemory")]
    NoMemory,
}

impl From<NoMemory> for LowerFault {
    ghost use Rattle.std.specs.Prelude.{◌≡◌};
    ghost use Rattle.lower_meaning.specs.declared.fault.LowerFault.TheVariants.{NoMemory as no_memory};

    ghost from_gives = { λ _ fault. fault ≡ no_memory };

    fn from(_fault: NoMemory) -> LowerFault {
        LowerFault::NoMemory
    }
}
