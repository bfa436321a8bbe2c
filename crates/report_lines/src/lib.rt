//! The texts of coverage reports, made from tables: the total line, the info file, and annotated sources.
#![tactic(auto)]

mod annotation;
mod fields;
mod info;
mod info_line;
mod number;
mod piece;
mod short;
mod total;
mod walk;

pub use annotation::annotated;
pub use info::info_text;
pub use short::short_source;
pub use total::total_text;
