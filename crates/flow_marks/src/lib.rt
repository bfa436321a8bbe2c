//! Sets of bits of numbered variables, which are filled and asked by ranges of words and places.
#![tactic(auto)]

mod marks;
mod slot;
mod span;
mod trail;

pub use marks::Marks;
pub use slot::{Layout, Slot, laid_out};
pub use span::Span;
pub use trail::{Spot, take, take_span, undo};
