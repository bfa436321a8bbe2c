//! The types of scope trees and flat sources, and why a design has none.
#![tactic(auto)]

mod arm;
mod elab_fault;
mod flat_expression;
mod flat_fault;
mod flat_source;
mod flat_statement;
mod scope;
mod threads;

pub use arm::{ArmComment, ArmRow};
pub use cov_types::{LineRange, ProcessKind, VarKind};
pub use elab_fault::ElabFault;
pub use flat_expression::{FlatExpr, FlatSelect};
pub use flat_fault::FlatFault;
pub use flat_source::{FlatProcess, FlatSource, FlatVar};
pub use flat_statement::{FlatArm, FlatKind, FlatStmt};
pub use scope::{Constant, Scope, ScopeItem, ScopeTree};
