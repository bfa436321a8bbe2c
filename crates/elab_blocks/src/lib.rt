//! Names that stand twice in a scope, and the names of generate blocks.
#![tactic(auto)]

mod blocks;
mod duplicate;

pub use blocks::block_name;
pub use duplicate::{declares_twice, stands_twice};
