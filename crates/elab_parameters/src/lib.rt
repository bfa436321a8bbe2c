//! Declarations of parameters: the constants that they declare, and why they are refused.
#![tactic(auto)]

mod declaration;
mod form;
mod found;
mod size;
mod value;

pub use declaration::judge_parameters;
