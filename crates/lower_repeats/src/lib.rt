//! Replications, and `$clog2`: typed forms that need the value of a constant.
#![tactic(auto)]

mod logarithm;
mod repeated;

pub use logarithm::read_logarithm;
pub use repeated::{read_count, read_repeat};
