//! Which arms of a design carry counters, and which.
#![tactic(auto)]

mod counters;
mod needed;

pub use counters::arm_counters;
