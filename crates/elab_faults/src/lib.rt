//! What is wrong with the expressions and ranges at a place of a design, by the rules in their order.
#![tactic(auto)]

mod flaw;
mod place;
mod ranges;

pub use flaw::{both, earlier, of_constant};
pub use place::fault_at;
pub use ranges::{memory_flaws, read_constant, start_flaws, vector_flaw, vector_flaws};
