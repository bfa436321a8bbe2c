use cov_types::{LimitName, NoMemory, Place};
use thiserror::Error;

/// Why a scope tree has no flat source: the first refusal on the walk, and at one place the earlier of these.
///
/// The place is the first token of the item, or of the statement.
#[derive(Clone, Copy, Debug, PartialEq, Eq, Error)]
pub enum FlatFault {
    /// No variable or constant of the name is visible there.
    #[error("UnknownName")]
    UnknownName(Place),
    /// A process writes anything but a reg or integer, an assignment or the connection of an output anything but a wire, or
    /// an input is written.
    #[error("BadTarget")]
    BadTarget(Place),
    /// A connection names no port or one twice, there are more connections than ports, or that of an output is no target.
    #[error("BadPort")]
    BadPort(Place),
    /// `posedge` names no clock signal, or a clock signal is used in another way.
    #[error("BadClock")]
    BadClock(Place),
    /// The names of a loop aren't one integer, or a loop variable is written, read or used where it may not be.
    #[error("LoopVariable")]
    LoopVariable(Place),
    /// A loop makes more than 65,536 passes.
    #[error("LoopBound")]
    LoopBound(Place),
    /// A format has another letter than `d`, `h`, `b`, or formats and values differ in number.
    #[error("BadFormat")]
    BadFormat(Place),
    /// `$display`, `$finish` or `$stop` stands in a combinational process.
    #[error("NotInProcess")]
    NotInProcess(Place),
    /// An expression of a process that has to be a constant isn't one.
    #[error("NotConstant")]
    NotConstant(Place),
    /// There are too many statements, processes or state bits.
    #[error("Limit")]
    Limit(LimitName),
    /// Memory was wanted and not given.
    #[error("NoMemory")]
    NoMemory,
}

impl From<NoMemory> for FlatFault {
    ghost use Rattle.std.specs.Prelude.{◌≡◌};
    ghost use Rattle.elab_types.specs.declared.flat_fault.FlatFault.TheVariants.{NoMemory as no_memory};

    ghost from_gives = { λ _ fault. fault ≡ no_memory };

    fn from(_fault: NoMemory) -> FlatFault {
        FlatFault::NoMemory
    }
}
