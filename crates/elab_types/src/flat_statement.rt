use crate::flat_expression::FlatExpr;
use cov_types::{ByteText, Place, Rows};
use sqlite_items::{Boxed, Items};

/// A statement and the place of its first token in the source (IEEE 1364-2005, procedural statements).
#[cycle(flat_stmt)]
#[derive(Drop)]
pub struct FlatStmt {
    pub place: Place,
    pub what: FlatKind,
}

/// What a statement is where names are resolved and loops are unrolled (IEEE 1364-2005, behavioral modeling).
#[cycle(flat_stmt)]
#[derive(Drop)]
pub enum FlatKind {
    /// `;`
    Empty,
    /// `begin .. end`, with the place of its `end`; or a `for`, whose passes are its statements and whose place is `last`.
    Block {
        body: Items<FlatStmt>,
        last: Place,
    },
    /// `if`
    If {
        test: FlatExpr,
        yes: Boxed<FlatStmt>,
        no: Option<Boxed<FlatStmt>>,
    },
    /// `case`, or where it is `wild` `casez`.
    Case {
        wild: bool,
        on: FlatExpr,
        arms: Items<FlatArm>,
    },
    /// `target = value`
    Set {
        target: FlatExpr,
        value: FlatExpr,
    },
    /// `target <= value`
    Later {
        target: FlatExpr,
        value: FlatExpr,
    },
    /// `$display`, with its text and values.
    Show {
        text: Option<ByteText>,
        values: Rows<FlatExpr>,
    },
    /// `$finish`
    Finish,
    /// `$stop`
    Stop,
}

/// An arm of a `case`. It has no items where it is the default.
#[cycle(flat_stmt)]
#[derive(Drop)]
pub struct FlatArm {
    pub place: Place,
    pub items: Rows<FlatExpr>,
    pub body: FlatStmt,
}
