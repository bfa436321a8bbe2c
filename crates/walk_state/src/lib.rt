//! The state of the walk through a design: where it stands, what is left to do, and what it came to.
#![tactic(auto)]

mod left;
mod place;
mod record;
mod stack;
mod walk;

pub use left::{Left, LoopPasses, MadeBy};
pub use place::ScopePlace;
pub use record::{Entered, Record};
pub use stack::Stack;
pub use walk::Walk;
