//! Statements, read from tokens.
#![tactic(auto)]

mod leaf_statement;
mod statement;

pub use statement::whole_statement;
