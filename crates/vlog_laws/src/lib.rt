//! Reading tokens from left to right finds exactly what the grammar says.
#![tactic(auto)]

mod laws;

pub use laws::{expressions_are_exact, files_are_exact, statements_are_exact};
