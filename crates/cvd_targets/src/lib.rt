//! Targets and displayed pieces of a design file, read and tested.
#![tactic(auto)]

mod assigned;
mod count;
mod destination;
mod digits;
mod piece;
mod pieces;
mod position;
mod shown;
mod target;
mod targets;
mod written;

pub use assigned::{Assigned, read_assigned};
pub use count::{items_for, rows_for, turns};
pub use pieces::{Pieces, read_pieces};
