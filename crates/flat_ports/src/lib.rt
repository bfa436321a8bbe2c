//! The inputs and outputs of a design, by the numbers of their variables.
#![tactic(auto)]

mod ports;

pub use ports::{input_numbers, output_numbers};
