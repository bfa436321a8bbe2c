//! What the pieces of a `show` step print.
#![tactic(auto)]

mod digit;
mod show;

pub use show::{columns_of, hex_digits, put_hex, put_pieces};
