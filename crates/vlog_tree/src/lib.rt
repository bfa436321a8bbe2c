//! The syntax trees of Verilog text.
#![tactic(auto)]

mod expression;
mod item;
mod module;
mod operator;
mod shared;
mod statement;

pub use expression::{Expr, RangeExpr, Select};
pub use item::{
    AssignPart, BlockPlaces, Conns, GenArm, GenBody, Instance, Item, ItemKind, NamePlace,
    NamedConn, ParamForm, ParamName, RegName, WireName,
};
pub use module::{Module, Port, PortKind, SourceFile};
pub use operator::{BinaryOp, SystemCall, UnaryOp};
pub use shared::Shared;
pub use statement::{CaseArm, Stmt, StmtKind};
