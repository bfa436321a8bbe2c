//! How the walk through a design leaves scopes: generate blocks, and the modules of instances.
#![tactic(auto)]

mod ends;

pub use ends::{end_block, end_module};
