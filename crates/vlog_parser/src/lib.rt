//! The syntax tree of Verilog tokens.
#![tactic(auto)]

mod fault;
mod module;
mod source_text;
mod threads;

pub use fault::SyntaxFault;
pub use source_text::parse;
