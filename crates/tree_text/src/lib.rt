//! Trees written down, with brackets round each node: `a + b * c` is `(Add a (Multiply b c))`.
#![tactic(auto)]

mod expression;
mod item;
mod module;
mod page;
mod plain_item;
mod statement;

pub use module::file_text;
