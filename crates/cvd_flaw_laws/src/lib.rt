//! Laws of what is wrong with texts that are no designs'.
#![tactic(auto)]

mod law;

pub use law::{a_design_that_flows_has_no_flaw, a_text_is_told_one_way};
