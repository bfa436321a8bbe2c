//! The names of generate blocks and scopes, and the texts of modules with their parameters.
#![tactic(auto)]

mod names;
mod number;
mod texts;

pub use names::{genblk, inside, pass_name};
pub use texts::module_text;
