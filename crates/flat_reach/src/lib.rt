//! Names that are handed down from scope to scope: the least set that has a first one.
#![tactic(auto)]

mod reach;

pub use reach::{Handing, reached};
