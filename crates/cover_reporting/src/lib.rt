//! The reports that `cover` is asked for.
#![tactic(auto)]

mod asked;
mod making;
mod storing;

pub use making::reports;
