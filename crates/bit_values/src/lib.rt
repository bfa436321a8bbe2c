//! Values of 1 to 128 bits, and the operators of Verilog on them.
#![tactic(auto)]

mod arithmetic;
mod bitwise;
mod compare;
pub mod laws;
mod part;
mod reduction;
mod shift;
mod size;
mod value;

pub use arithmetic::{add, mul, neg, sdiv, srem, sub, udiv, urem};
pub use bitwise::{and, not, or, xor};
pub use compare::{equal, sle, slt, ule, ult};
pub use part::{replace, select};
pub use reduction::{red_and, red_or, red_xor};
pub use shift::{sar, shl, shr};
pub use size::{concat, extend, truncate};
pub use value::Bits;

#[cfg(test)]
mod tests;
