ghost use Rattle.std.specs.Prelude.{◌≡◌};
ghost use Rattle.elab_constants.specs.Faults as spec;

use std::alloc::AllocError;
use thiserror::Error;

/// Why an expression has no value as a constant: the first of these that holds anywhere in it.
#[derive(Clone, Copy, Debug, PartialEq, Eq, Error)]
pub enum ConstantFault {
    /// A name stands for no constant.
    #[error("NotConstant")]
    NotConstant,
    /// There is a select, or a replication whose count is below 1.
    #[error("BadSelect")]
    BadSelect,
    /// A size is past 128.
    #[error("WidthPast128")]
    WidthPast128,
    /// Memory was wanted and not given.
    #[error("NoMemory")]
    NoMemory,
}

impl From<AllocError> for ConstantFault {
    ghost use Rattle.elab_constants.specs.declared.fault.ConstantFault.TheVariants.{NoMemory as no_memory};

    ghost from_gives = { λ _ fault. fault ≡ no_memory };

    fn from(_fault: AllocError) -> ConstantFault {
        ConstantFault::NoMemory
    }
}

/// The one that comes first; want of memory comes before all.
pub fn earlier(one: ConstantFault, other: ConstantFault) -> ConstantFault
    ensures { result ≡ spec.earlier one other }
{
    match (one, other) {
        (ConstantFault::NoMemory, _) | (_, ConstantFault::NoMemory) => ConstantFault::NoMemory,
        (ConstantFault::NotConstant, _) | (_, ConstantFault::NotConstant) =>
            ConstantFault::NotConstant,
        (ConstantFault::BadSelect, _) | (_, ConstantFault::BadSelect) => ConstantFault::BadSelect,
        _ => ConstantFault::WidthPast128,
    }
}
