use crate::design::Design;
use cov_types::{ByteText, Rows};

/// A bit whose changes raise a counter.
#[derive(Clone, Copy, Debug, PartialEq, Eq)]
pub struct ToggleEntry {
    pub var: u32,
    pub word: u32,
    pub bit: u8,
    pub counter: u32,
}

/// A coverage point: its count is that of the plus counters less that of the minus counters.
#[derive(Debug, Drop)]
pub struct PointRow {
    pub plus: Rows<u32>,
    pub minus: Rows<u32>,
    pub key: ByteText,
}

/// A design with counters, toggle entries and points.
#[derive(Drop)]
pub struct Instrumented {
    pub design: Design,
    pub counters: u32,
    pub toggles: Rows<ToggleEntry>,
    pub points: Rows<PointRow>,
}
