//! What names stand for at a place of a design, in the passes of the loops there.
#![tactic(auto)]

mod inside;
mod loops;

pub use inside::InsideNames;
pub use loops::LoopValue;
