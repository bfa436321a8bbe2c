//! Settling a cycle: runs of the assignments and combinational processes along an order, where idle ones are skipped.
#![tactic(auto)]

mod along;

pub use along::settle;
