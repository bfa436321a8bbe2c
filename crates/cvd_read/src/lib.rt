//! A design file, read from its first line to its last.
#![tactic(auto)]

mod behaviour;
mod design;
mod entries;
mod ports;
mod process;

pub use design::read_lines;
