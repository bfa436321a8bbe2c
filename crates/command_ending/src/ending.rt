ghost use Rattle.std.specs.Prelude.{◌≡◌};
ghost use Rattle.command_ending.specs.Ending.{line_at, status_at};

use crate::status::Status;
use cov_port::ByteText;

/// How a command ended, with what standard error says of it.
///
/// A line that tells more than the status is made before a call that may fail, so that a fault needs no memory.
#[derive(Drop)]
pub enum Ending {
    /// All was done, and nothing is said.
    Done,
    /// The words spell no command.
    BadWords,
    /// Memory was wanted and not given.
    NoMemory,
    /// The run executed `$stop`.
    Stopped,
    /// A put on standard output failed.
    OutputFailed,
    /// A refusal, or the fault of a file, with its line and line feed.
    Refused(Status, ByteText),
}

impl Ending {
    /// The status.
    pub fn status(&self) -> Status
        ensures { result ≡ status_at self.now }
    {
        match self {
            Ending::Done => Status::Done,
            Ending::BadWords => Status::BadWords,
            Ending::NoMemory => Status::NoMemory,
            Ending::Stopped => Status::Stopped,
            Ending::OutputFailed => Status::Fault,
            Ending::Refused(status, _) => *status,
        }
    }

    /// The line on standard error, with its line feed. It is empty where all was done.
    pub fn line(&self) -> &[u8]
        ensures { result.now ≡ line_at self.now }
    {
        match self {
            Ending::Done => b"",
            Ending::BadWords => b"vcov: BadWords\n",
            Ending::NoMemory => b"vcov: NoMemory\n",
            Ending::Stopped => b"vcov: Stopped\n",
            Ending::OutputFailed => b"vcov: Fault: output\n",
            Ending::Refused(_, line) => line.as_slice(),
        }
    }
}
