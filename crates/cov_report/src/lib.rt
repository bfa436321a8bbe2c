//! Reports of coverage counts: annotated sources, info files and totals.
#![tactic(auto)]

mod annotating;
mod base_name;
mod choosing;
mod names;
mod report;

pub use report::Report;
pub use report_text::{ReportFault, ReportOptions};
