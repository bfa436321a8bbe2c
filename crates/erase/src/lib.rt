//! A copy of a design without its counts.
#![tactic(auto)]

mod design;
mod steps;

pub use design::erase;
