//! Numbers for marks: each set mark has one of its own.
#![tactic(auto)]

mod marks;

pub use marks::{MarkNumbers, number_marks};
