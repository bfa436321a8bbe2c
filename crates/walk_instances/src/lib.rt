//! How the walk through a design goes through the instances that an item makes.
#![tactic(auto)]

mod instances;

pub use instances::step_instances;
