//! What the rules of a flat source ask of names.
#![tactic(auto)]

mod asking;
mod meant;

pub use asking::{Asked, Asking};
