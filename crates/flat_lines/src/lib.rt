//! The lines of arms, and whether an arm stops the simulation, from the text alone.
#![tactic(auto)]

mod lines;
mod stop;

pub use lines::arm_lines;
pub use stop::stops;
