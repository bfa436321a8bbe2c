//! The headers of modules, their parameters and ports, read from tokens.
#![tactic(auto)]

mod port;
mod settings;

pub use port::port_list;
pub use settings::header;
