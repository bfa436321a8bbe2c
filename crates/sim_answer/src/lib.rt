//! What the command `sim` answers: definitions, and their laws.
#![tactic(auto)]

mod law;

pub use law::{runs_are_cut, sim_has_an_answer, sim_has_one_answer};
