//! The keys of coverage points.
#![tactic(auto)]

mod key;

pub use key::key_text;
