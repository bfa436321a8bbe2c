//! A cursor over the pieces of a design file's text, and the tokens that are read by it.
#![tactic(auto)]

mod cursor;
mod fault;
mod numeral;
mod token;

pub use cursor::Cursor;
pub use fault::ReadFault;
pub use numeral::{is_numeral, value};
pub use token::{expect, hex, number, sign};
