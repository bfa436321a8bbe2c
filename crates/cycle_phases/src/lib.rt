//! The phases of a run in which processes run one after the other: the start, and the edge of the clock.
#![tactic(auto)]

mod laws;
mod others;
mod phase;

pub use laws::edge_runs_in_turn;
pub use others::mark_others;
pub use phase::{Phase, run_phase};
