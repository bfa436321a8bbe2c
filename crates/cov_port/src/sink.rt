ghost use Rattle.std.specs.Prelude.{◌≡◌, ◌<◌, ◌≤◌, List, ℕ, Option, length, OnErr, IfOk};
ghost use Rattle.cov_port.specs.Causes.{HasCause, Both};
ghost use Rattle.cov_port.specs.Sinks.{Puts, PutsPart};

use thiserror::Error;

/// A put that failed.
#[derive(Clone, Copy, Debug, PartialEq, Eq, Error)]
pub enum SinkFault {
    #[error("Failed")]
    Failed,
}

/// A place that takes bytes one after the other, as standard output.
///
/// A put answers `Failed` only where `faults` rose in it, and has then taken some first bytes of
/// the piece, or none. To take nothing of a piece that isn't empty is a fault.
pub trait Sink {
    // All that was put, where it is told.
    ghost written: { Self → Option (List ℕ) };

    // How often a put has failed.
    ghost faults: { Self → ℕ };

    /// Takes first bytes of the piece, and tells how many.
    fn put(&mut self, bytes: &[u8]) -> Result<usize, SinkFault>
        ensures bound { IfOk result (λ n. n ≤ length bytes.now) }
        ensures some { IfOk result (λ n. 0 < length bytes.now → 0 < n) }
        ensures put { IfOk result (λ n. Both (Puts n bytes.now) (written self.old) (written self.new)) }
        ensures part { OnErr result (Both (PutsPart bytes.now) (written self.old) (written self.new)) }
        ensures cause { HasCause (faults self.old) (faults self.new) result };
}
