//! The command `check`: design files against tokens and grammar.
#![tactic(auto)]

mod check;
mod design;
mod law;
mod reading;

pub use check::check_files;
pub use law::{check_has_one_answer, check_is_done_unless_wrong};
