use cov_types::ProcessKind;

/// What a process is, in a design with so many counters.
#[derive(Clone, Copy, Debug)]
pub struct Process {
    pub kind: ProcessKind,
    pub counters: u32,
}
