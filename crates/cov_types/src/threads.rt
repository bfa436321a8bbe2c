use crate::byte_text::ByteText;
use crate::kind::{ProcessKind, VarKind};
use crate::limit::LimitName;
use crate::line_range::LineRange;
use crate::no_memory::NoMemory;
use crate::place::Place;
use crate::pragma::{Pragma, PragmaKind};
use crate::rows::Rows;
use crate::var::Var;

/// Takes any type whose values may move to another thread and be read from several.
pub fn crosses_threads<T: Send + Sync>() {}

/// The shared types cross threads.
pub(crate) fn types_cross_threads() {
    crosses_threads::<ByteText>();
    crosses_threads::<LimitName>();
    crosses_threads::<LineRange>();
    crosses_threads::<NoMemory>();
    crosses_threads::<Place>();
    crosses_threads::<Pragma>();
    crosses_threads::<PragmaKind>();
    crosses_threads::<ProcessKind>();
    crosses_threads::<Var>();
    crosses_threads::<VarKind>();
}

/// Rows cross threads where what they are rows of does.
pub(crate) fn rows_cross_threads<T: Send + Sync>() {
    crosses_threads::<Rows<T>>();
}
