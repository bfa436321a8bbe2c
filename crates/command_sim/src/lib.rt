//! The command `sim`: a built design and a stimulus to a printed run and a data file.
#![tactic(auto)]

mod design_run;

pub use design_run::simulate_design;
pub use sim_frame::Simulation;
