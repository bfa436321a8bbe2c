//! Design files: one text for each design, written and read.
#![tactic(auto)]

mod fault;
mod law;
mod reading;
mod threads;
mod whole;
mod writing;

pub use fault::CvdFault;
pub use law::no_text_is_left_untold;
pub use whole::decode;
pub use writing::encode;
