//! The command `cover`: data files to a merged file.
#![tactic(auto)]

mod law;
mod merge;
mod reading;

pub use law::{merge_has_one_answer, merge_is_done_unless_wrong, merges_in_any_order};
pub use merge::merge_files;
