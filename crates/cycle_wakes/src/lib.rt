//! What wakes the processes that settle: which of them read a variable, and which variables a run may have changed.
#![tactic(auto)]

mod changes;
mod readers;
mod sources;
mod targets;
mod wakes;

pub use changes::{Changes, note_sources, note_targets};
pub use wakes::Wakes;
