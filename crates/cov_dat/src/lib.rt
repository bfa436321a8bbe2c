//! Data files of coverage counts: their records, and what several files come to together.
#![tactic(auto)]

mod byte_key;
mod data_reader;
mod data_text;
mod fault;
mod front;
mod front_law;
mod key_fields;
mod key_place;
mod key_table;
mod law;
mod line;
mod merge_fault;
mod merged;
mod pattern;
mod read;
mod record_list;
mod record_step;
mod text_reader;
mod threads;

pub use data_reader::DataReader;
pub use fault::DataFault;
pub use front_law::front_is_enough;
pub use key_fields::{field, kind};
pub use law::{
    adding_gives_the_sums, additions_in_any_order, files_in_any_order, limits_in_any_order,
    limits_stay, reads_by_lines, records_in_any_order,
};
pub use merge_fault::MergeFault;
pub use merged::Merged;
pub use pattern::kept;
pub use read::records;
pub use record_list::{Record, RecordList};
pub use record_step::RecordStep;
pub use text_reader::TextReader;
