//! Laws of the texts of designs that a `sim` is given.
#![tactic(auto)]

mod law;

pub use law::texts_are_told_one_way;
