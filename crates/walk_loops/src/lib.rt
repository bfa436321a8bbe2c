//! How the walk through a design goes through generate loops: to the first turn, and from turn to turn.
#![tactic(auto)]

mod enter;
mod turns;

pub use turns::{into_loop, step_on, step_turn};
