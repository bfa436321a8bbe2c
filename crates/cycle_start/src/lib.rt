//! What a run starts from.
#![tactic(auto)]

mod start;

pub use start::start_state;
