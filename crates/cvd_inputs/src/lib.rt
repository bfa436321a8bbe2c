//! The inputs of a design file.
#![tactic(auto)]

mod count;
mod input;
mod name;

pub use input::read_inputs;
