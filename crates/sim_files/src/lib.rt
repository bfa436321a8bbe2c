//! The command `sim`, from its files: the design file and the stimulus to a printed run and a data file.
#![tactic(auto)]

mod command;
mod design_ending;

pub use command::simulate;
pub use sim_frame::Simulation;
