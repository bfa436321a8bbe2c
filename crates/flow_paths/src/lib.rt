//! The flow conditions that speak of the paths of a process.
#![tactic(auto)]

mod branches;
mod faults;
mod reads;
mod steps;
mod targets;
mod walk;

pub use faults::{PathFault, path_fault};
