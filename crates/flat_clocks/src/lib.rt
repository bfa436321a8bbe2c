//! The clock signals of a design.
#![tactic(auto)]

mod clock;
mod handing;

pub use clock::clocks;
