//! The arms of a design in the order of their numbers.
#![tactic(auto)]

mod design;
mod row;
mod steps;

pub use design::arm_rows;
pub use row::ArmRow;
