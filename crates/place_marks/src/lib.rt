//! A set of places of a list, which is filled place by place and gone over upwards, 64 places at a time.
#![tactic(auto)]

mod marks;

pub use marks::PlaceMarks;
