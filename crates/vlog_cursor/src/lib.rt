//! A cursor over tokens, and the steps that every rule of the grammar is read by.
#![tactic(auto)]

mod cursor;
mod list;
mod mark;
mod text;
mod word;

pub use cursor::Cursor;
pub use list::{Rule, listed, optional, separated};
pub use mark::{prefix, system_call};
pub use text::copied_text;
pub use word::Word;
