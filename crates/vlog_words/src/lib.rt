//! Words of Verilog: identifiers, reserved words, and operators and other marks.
#![tactic(auto)]

mod identifier;
mod keyword;
mod late;
mod law;
mod name;
mod symbol;

pub use identifier::is_identifier;
pub use keyword::word_of;
pub use law::longest_symbol;
pub use name::{begins_name, begins_with_name, continues_name, name_len};
pub use symbol::symbol_of;
