//! How the walk through a design goes through the header and the ports of a module.
#![tactic(auto)]

mod parameters;
mod ports;

pub use parameters::step_header;
pub use ports::step_ports;
