//! Values of constant expressions.
#![tactic(auto)]

mod binary;
mod both;
mod fault;
mod joined;
mod names;
mod node;
mod reader;
mod sized;
mod term;
mod unary;
mod value;

pub use fault::{ConstantFault, earlier};
pub use names::{ConstantValue, Names};
pub use reader::read;
pub use sized::SizedTerm;
pub use term::{Arithmetic, Shift, Term};
