ghost use Rattle.std.specs.Prelude.{◌≡◌};
ghost use Rattle.vlog_parser.specs.declared.fault.SyntaxFault.TheVariants.{NoMemory as wants_memory};

use cov_types::{NoMemory, Place};
use thiserror::Error;

/// Why there is no tree.
#[derive(Clone, Copy, Debug, PartialEq, Eq, Error)]
pub enum SyntaxFault {
    /// The tokens spell none. The place is that of one of them.
    #[error("Syntax")]
    Syntax(Place),
    /// There was no memory for it.
    #[error("NoMemory")]
    NoMemory,
}

impl From<NoMemory> for SyntaxFault {
    ghost from_gives = { λ _ e. e ≡ wants_memory };

    fn from(_error: NoMemory) -> SyntaxFault {
        SyntaxFault::NoMemory
    }
}
