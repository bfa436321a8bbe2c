//! The scope tree of a design, or why it has none.
#![tactic(auto)]

mod tree;
mod walk;

pub use tree::scopes;
