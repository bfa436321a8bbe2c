//! Module items, read from tokens.
#![tactic(auto)]

mod block_name;
mod item;
mod plain_item;

pub use item::whole_items;
