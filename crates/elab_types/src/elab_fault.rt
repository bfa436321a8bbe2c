use cov_types::{LimitName, NoMemory, Place};
use thiserror::Error;

/// Why a design has no scope tree: the first refusal on the walk through it, and at one place the earlier of these.
///
/// The place is the first token of the item, or of the port.
#[derive(Clone, Copy, Debug, PartialEq, Eq, Error)]
pub enum ElabFault {
    /// A module name stands twice, which comes before all else, or a name is declared twice in one scope. The place is that
    /// of the second one.
    #[error("Duplicate")]
    Duplicate(Place),
    /// No module has the top's name. The place is line 1, column 1 of the first file.
    #[error("NoTop")]
    NoTop(Place),
    /// An expression that has to be a constant has a name that stands for none.
    #[error("NotConstant")]
    NotConstant(Place),
    /// A constant has a select, or a replication whose count is below 1.
    #[error("BadSelect")]
    BadSelect(Place),
    /// A vector range ascends, or a bound of a range is negative or past `2^31 - 1`.
    #[error("BadRange")]
    BadRange(Place),
    /// A declared width, or a size inside a constant, is past 128.
    #[error("WidthPast128")]
    WidthPast128(Place),
    /// The names of a generate loop aren't one genvar that is visible there, or a loop around uses it.
    #[error("BadGenvar")]
    BadGenvar(Place),
    /// An instance names no module.
    #[error("UnknownModule")]
    UnknownModule(Place),
    /// A value for a parameter names none, names one twice, or there are more values than parameters.
    #[error("BadOverride")]
    BadOverride(Place),
    /// The module of an instance stands in the instance's own path.
    #[error("Recursive")]
    Recursive(Place),
    /// A memory has too many words, or the design too many scopes.
    #[error("Limit")]
    Limit(LimitName),
    /// Memory was wanted and not given.
    #[error("NoMemory")]
    NoMemory,
}

impl From<NoMemory> for ElabFault {
    ghost use Rattle.std.specs.Prelude.{◌≡◌};
    ghost use Rattle.elab_types.specs.declared.elab_fault.ElabFault.TheVariants.{NoMemory as no_memory};

    ghost from_gives = { λ _ fault. fault ≡ no_memory };

    fn from(_fault: NoMemory) -> ElabFault {
        ElabFault::NoMemory
    }
}
