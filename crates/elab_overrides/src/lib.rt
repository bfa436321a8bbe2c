//! The parameters of modules, and the values that instances give them.
#![tactic(auto)]

mod given;
mod parameters;

pub use given::{Givens, given_values};
pub use parameters::Parameters;
