//! Laws of the text of design files.
#![tactic(auto)]

mod law;

pub use law::{
    a_design_has_one_text, expressions_are_apart, numbers_are_told, pieces_are_apart,
    targets_are_apart,
};
