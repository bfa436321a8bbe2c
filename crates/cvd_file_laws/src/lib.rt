//! Laws of whole design files.
#![tactic(auto)]

mod law;

pub use law::{
    a_design_is_valid_where_its_lines_stand, a_text_has_one_design, no_text_is_the_front_of_another,
};
