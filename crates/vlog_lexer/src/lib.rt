//! Verilog text as tokens.
#![tactic(auto)]

mod bytes;
mod comment;
mod fault;
mod front;
mod law;
mod limits;
mod number;
mod piece;
mod position;
mod quoted;
mod reading;
mod threads;

pub use cov_types::{ByteText, LimitName, NoMemory, Place, Pragma, PragmaKind, Rows};
pub use fault::LexFault;
pub use law::{longest_name, one_reading, places_from_one, spelled_numbers, spelled_strings};
pub use reading::tokens;
pub use vlog_tokens::{Token, TokenKind, TokenList};
pub use vlog_words::{is_identifier, longest_symbol};
