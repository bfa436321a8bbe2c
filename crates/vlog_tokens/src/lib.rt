//! The tokens of Verilog text.
#![tactic(auto)]

mod threads;
mod token;
mod token_list;

pub use token::{Token, TokenKind};
pub use token_list::TokenList;
