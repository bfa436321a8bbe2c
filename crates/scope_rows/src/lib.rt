//! The scope tree of a walk, made of what the walk recorded.
#![tactic(auto)]

mod gathered;
mod text;
mod tree;

pub use tree::scope_tree;
