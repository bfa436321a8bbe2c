//! The words of a command line, and the command that they spell.
#![tactic(auto)]

mod arguments;
mod command;
mod front;
mod given;
mod law;
mod names;
mod piece;
mod reading;
mod table;
mod values;

pub use command::{Build, Command, Cover, Sim};
pub use law::{count_bits_are_in_range, pieces_are_the_cut};
pub use names::Names;
pub use reading::read_words;
