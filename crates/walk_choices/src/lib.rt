//! How the walk through a design goes through a generate `if`: into the block of the chosen arm, or past it.
#![tactic(auto)]

mod choice;

pub use choice::into_choice;
