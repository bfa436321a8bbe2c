//! What each process of a design reads, as words with masks, and whether a bit of it differs between two states.
#![tactic(auto)]

mod change;
mod mask;
mod order;
mod threads;

pub use change::active;
pub use mask::WordMask;
pub use order::Order;
