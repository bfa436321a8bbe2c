//! The variables that the ports and items of a design declare.
#![tactic(auto)]

mod declared;
mod memory;
mod size;
mod start;
mod variable;

pub use declared::{item_variables, port_variable};
