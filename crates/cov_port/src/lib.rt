//! Files, sinks and numbers, and the types of `cov_types`, which stand here under the same names.
#![tactic(auto)]

mod bytes;
mod dec;
mod file_log;
mod files;
mod hex;
mod key;
mod line_cutter;
mod line_law;
mod line_list;
mod line_step;
mod lines;
mod mem_files;
mod mem_sink;
mod memory;
mod putting;
mod real_files;
mod real_sink;
mod sink;
mod span;
mod take;
mod threads;

pub use bytes::place_of;
pub use cov_types::{
    ByteText, LimitName, LineRange, NoMemory, Place, Pragma, PragmaKind, ProcessKind, Rows, VarKind,
};
pub use dec::read_dec;
pub use files::{FileFault, Files};
pub use hex::read_hex;
pub use key::is_key;
pub use line_cutter::LineCutter;
pub use line_law::lines_are_read_again;
pub use line_list::{line_text, read_lines};
pub use line_step::{CutFault, LineStep};
pub use lines::{LineCut, cut_line, line_bytes};
pub use mem_files::MemFiles;
pub use mem_sink::MemSink;
pub use putting::put_all;
pub use real_files::RealFiles;
pub use real_sink::RealSink;
pub use sink::{Sink, SinkFault};
pub use take::{TakeFault, take_file};
