//! How the walk through a design goes from an item to the instances that it makes.
#![tactic(auto)]

mod makes;

pub use makes::{into_instances, module_number, module_of};
