//! Output that is put in pieces of some 64 KiB, from memory that was taken before.
#![tactic(auto)]

mod output;
mod within;

pub use output::Output;
pub use within::append_within;
