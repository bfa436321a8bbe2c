//! Typed forms of expressions that wait for the size and sign of their context.
#![tactic(auto)]

mod form;
mod operator;
mod settle;
mod sized;

pub use form::Form;
pub use operator::{binary, unary};
pub use sized::SizedForm;
