//! The program: the words of a command line, the command that they ask for, and what all commands leave.
#![tactic(auto)]

mod launch;
mod law;
mod program;
mod task;

pub use command_ending::Status;
pub use launch::run_program;
pub use law::{answers_agree, done_unless_wrong, merges_in_any_order, writing_merges};
pub use program::vcov;
