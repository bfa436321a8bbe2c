ghost use Rattle.std.specs.Prelude.{◌≡◌, ◌≤◌, List, ℕ, Option, [], length, OnOk, OnErr, IfOk, IfSome};
ghost use Rattle.cov_port.specs.Causes.{HasCause, Both};
ghost use Rattle.cov_port.specs.Files.{Names, FileFaults, HasOpenCause, Opens, ReadTakes, Stores, StoresPart, lacks};

use thiserror::Error;

/// A call on files that failed.
#[derive(Clone, Copy, Debug, PartialEq, Eq, Error)]
pub enum FileFault {
    #[error("Failed")]
    Failed,
}

/// Files by name, of which one at a time is open for reading.
///
/// `open` replaces the open file, and with none open `read` gives 0 bytes. Each call answers
/// `Failed` only where its own number of `faults` rose in it, except that `open` of a name that
/// told files lack is `Failed` and raises no number.
pub trait Files {
    // What each name holds, where it is told.
    ghost held: { Self → Option Names };

    // The unread bytes of the open file, where they are told.
    ghost rest: { Self → Option (List ℕ) };

    // How often each of the three calls has failed.
    ghost faults: { Self → FileFaults };

    /// Opens the file of this name at its first byte.
    fn open(&mut self, name: &str) -> Result<(), FileFault>
        ensures opened { OnOk result (Opens (held self.old) name.now (rest self.new)) }
        ensures none_open { OnErr result (IfSome (rest self.new) (λ left. left ≡ [])) }
        ensures held { held self.new ≡ held self.old }
        ensures cause { HasOpenCause (lacks (held self.old) name.now) (faults self.old).opens (faults self.new).opens result }
        ensures reads { (faults self.new).reads ≡ (faults self.old).reads }
        ensures stores { (faults self.new).stores ≡ (faults self.old).stores };

    /// Reads some of the next bytes. 0 bytes into a buffer that isn't empty is the end of the file.
    fn read(&mut self, buf: &mut [u8]) -> Result<usize, FileFault>
        ensures bound { IfOk result (λ n. n ≤ length buf.new) }
        ensures bytes { IfOk result (λ n. IfSome (rest self.old) (λ left. ReadTakes left (rest self.new) n buf.new)) }
        ensures held { held self.new ≡ held self.old }
        ensures cause { HasCause (faults self.old).reads (faults self.new).reads result }
        ensures opens { (faults self.new).opens ≡ (faults self.old).opens }
        ensures stores { (faults self.new).stores ≡ (faults self.old).stores };

    /// Makes the name hold these bytes. A refused store leaves there a prefix of them, or what stood there.
    fn store(&mut self, name: &str, bytes: &[u8]) -> Result<(), FileFault>
        ensures stored { OnOk result (Both (Stores name.now bytes.now) (held self.old) (held self.new)) }
        ensures part { OnErr result (Both (StoresPart name.now bytes.now) (held self.old) (held self.new)) }
        ensures rest { rest self.new ≡ rest self.old }
        ensures cause { HasCause (faults self.old).stores (faults self.new).stores result }
        ensures opens { (faults self.new).opens ≡ (faults self.old).opens }
        ensures reads { (faults self.new).reads ≡ (faults self.old).reads };
}
