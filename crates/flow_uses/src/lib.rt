//! What each process of a design reads and writes, as spans of bits.
#![tactic(auto)]

mod all;
mod lists;
mod steps;
mod uses;

pub use all::all_uses;
pub use flow_spans::Span;
pub use uses::Uses;
