use crate::place::Place;

/// What a coverage comment asks for (Verilator User's Guide, configuration in comments).
#[derive(Clone, Copy, Debug, PartialEq, Eq)]
pub enum PragmaKind {
    /// `verilator coverage_off`
    Off,
    /// `verilator coverage_on`
    On,
    /// `verilator coverage_block_off`
    BlockOff,
}

/// A coverage comment and the place of its first byte.
#[derive(Clone, Copy, Debug, PartialEq, Eq)]
pub struct Pragma {
    pub place: Place,
    pub what: PragmaKind,
}
