//! Reading tokens from left to right, as functions on lists: what the parser crates are proved
//! against. These definitions are private: `vlog_laws` proves that they find exactly the grammar.
#![tactic(auto)]

mod fault;
mod for_head;

pub use fault::ReadFault;
pub use for_head::ForHead;
