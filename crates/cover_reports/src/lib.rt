//! What `cover` reports: annotated sources, their names, and refusals.
#![tactic(auto)]

mod annotated;
mod base;
mod prepared;
mod refusal;
mod source;
mod stored;

pub use annotated::annotated_source;
pub use base::{base_of, stored_name};
pub use prepared::prepare_report;
pub use refusal::{bad_file, refused_report};
pub use source::take_source;
pub use stored::add_annotated;
