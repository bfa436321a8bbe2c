//! The variables of a design, with their numbers.
#![tactic(auto)]

mod kept;
mod names;

pub use kept::{KeptVariables, kept_variables};
pub use names::PlaceNames;
