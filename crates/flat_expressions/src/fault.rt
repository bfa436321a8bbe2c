use std::alloc::AllocError;
use thiserror::Error;

/// Why an expression has no flat form.
#[derive(Clone, Copy, Debug, PartialEq, Eq, Error)]
pub enum CopyFault {
    /// A name stands for nothing.
    #[error("Unknown")]
    Unknown,
    /// Memory was wanted and not given.
    #[error("NoMemory")]
    NoMemory,
}

impl From<AllocError> for CopyFault {
    ghost use Rattle.std.specs.Prelude.{◌≡◌};
    ghost use Rattle.flat_expressions.specs.declared.fault.CopyFault.TheVariants.{NoMemory as no_memory};

    ghost from_gives = { λ _ fault. fault ≡ no_memory };

    fn from(_fault: AllocError) -> CopyFault {
        CopyFault::NoMemory
    }
}
