//! A copy of a design with counts at the heads of its arms.
#![tactic(auto)]

mod design;
mod process;
mod steps;

pub use design::counted_copy;
