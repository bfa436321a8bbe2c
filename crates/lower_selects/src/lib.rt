//! Variables and their selects: typed forms, from those of their positions.
#![tactic(auto)]

mod object;
mod place;
mod position;
mod range;
mod width;

pub use object::{is_vector, read_part, read_variable, read_word, read_word_part};
pub use place::{Placing, read_at, read_between, read_down, read_up};
pub use position::{Position, own_index};
pub use range::some_bits;
pub use width::Width;
