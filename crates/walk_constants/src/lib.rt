//! How the walk through a design goes past a declaration of parameters.
#![tactic(auto)]

mod constants;

pub use constants::past_constants;
