//! The modules of a design by number and by name, and which of them a place stands in.
#![tactic(auto)]

mod above;
mod find;
mod table;

pub use above::OpenModules;
pub use find::{FoundModule, Modules};
