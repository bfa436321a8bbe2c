//! How the walk through a design goes through the header and the ports of a module.
#![tactic(auto)]

mod header;

pub use header::{past_parameter, past_port, to_body, to_ports};
