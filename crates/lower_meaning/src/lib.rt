//! What `lower` may be given, and why a flat source has no typed form.
#![tactic(auto)]

mod fault;

pub use cov_types::{LimitName, Place};
pub use fault::LowerFault;
