use crate::step::Step;
use cov_types::{ByteText, ProcessKind, Rows, Var};
use sqlite_items::Items;

/// An input: its variable and its name.
#[derive(Debug, Drop)]
pub struct Input {
    pub var: u32,
    pub name: ByteText,
}

/// A process: a kind and steps.
#[derive(Drop)]
pub struct Process {
    pub kind: ProcessKind,
    pub body: Items<Step>,
}

/// A design: numbered variables and numbered processes.
#[derive(Drop)]
pub struct Design {
    pub vars: Rows<Var>,
    pub inputs: Rows<Input>,
    pub outputs: Rows<u32>,
    pub processes: Rows<Process>,
}
