//! The passes that a loop of a process makes: the values of its variable, each a constant.
#![tactic(auto)]

mod head;
mod pass;
mod reads;
mod turn;
mod values;

pub use head::PassHead;
pub use values::{Passes, pass_values};
