//! What reports of coverage counts say: definitions, and the tables that reports are made from.
#![tactic(auto)]

mod file_table;
mod options;
mod report_fault;
mod threads;

pub use file_table::{CountedLine, FileTable, LinePoint};
pub use options::ReportOptions;
pub use report_fault::ReportFault;
