//! The types that every other crate names: texts, rows, places, limits, and kinds of variables and processes.
#![tactic(auto)]

mod byte_text;
mod kind;
mod limit;
mod line_range;
mod no_memory;
mod place;
mod pragma;
mod rows;
mod threads;
mod var;

pub use byte_text::ByteText;
pub use kind::{ProcessKind, VarKind};
pub use limit::LimitName;
pub use line_range::LineRange;
pub use no_memory::NoMemory;
pub use place::Place;
pub use pragma::{Pragma, PragmaKind};
pub use rows::Rows;
pub use threads::crosses_threads;
pub use var::Var;
