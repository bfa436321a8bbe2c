//! How the walk through a design enters scopes: generate blocks, and the modules of instances.
#![tactic(auto)]

mod block;
mod instance;

pub use block::enter_block;
pub use instance::{begin, enter_instance};
