//! The command `cover` with all its options.
#![tactic(auto)]

mod cover;
mod table;
mod texts;

pub use cover::cover_files;
