ghost use Rattle.std.specs.Prelude.{◌≡◌};
ghost use Rattle.command_ending.specs.ExitCode.{exit_code};

/// How a call of the program ends.
#[derive(Clone, Copy, Debug, PartialEq, Eq)]
pub enum Status {
    /// All that the words ask for was done.
    Done,
    /// The words spell no command.
    BadWords,
    /// A design was refused.
    BadDesign,
    /// A stimulus was refused.
    BadStimulus,
    /// A data file or a built design was refused.
    BadData,
    /// A file or standard output failed.
    Fault,
    /// A stated limit was passed.
    Limit,
    /// Memory was wanted and not given.
    NoMemory,
    /// The run executed `$stop`.
    Stopped,
}

impl Status {
    /// The exit status, from 0 to 8.
    pub fn code(self) -> u8
        ensures { result ≡ exit_code self }
    {
        match self {
            Status::Done => 0,
            Status::BadWords => 1,
            Status::BadDesign => 2,
            Status::BadStimulus => 3,
            Status::BadData => 4,
            Status::Fault => 5,
            Status::Limit => 6,
            Status::NoMemory => 7,
            Status::Stopped => 8,
        }
    }
}
