use crate::expression::Expr;
use cov_types::{ByteText, Place, Rows};
use sqlite_items::{Boxed, Items};

/// A statement and the place of its first token (IEEE 1364-2005, procedural statements).
#[cycle(statement)]
#[derive(Drop)]
pub struct Stmt {
    pub place: Place,
    pub what: StmtKind,
}

/// What a statement is (IEEE 1364-2005, behavioral modeling).
#[cycle(statement)]
#[derive(Drop)]
pub enum StmtKind {
    /// `;`
    Empty,
    /// `begin .. end`, with the place of its `end`.
    Block {
        body: Items<Stmt>,
        last: Place,
    },
    /// `if`
    If {
        test: Expr,
        yes: Boxed<Stmt>,
        no: Option<Boxed<Stmt>>,
    },
    /// `case`, or where it is `wild` `casez`.
    Case {
        wild: bool,
        on: Expr,
        arms: Items<CaseArm>,
    },
    /// `for (name = from; test; step_name = step) body`
    For {
        name: ByteText,
        from: Expr,
        test: Expr,
        step_name: ByteText,
        step: Expr,
        body: Boxed<Stmt>,
    },
    /// `target = value;`
    Set {
        target: Expr,
        value: Expr,
    },
    /// `target <= value;`
    Later {
        target: Expr,
        value: Expr,
    },
    /// `$display`
    Show {
        text: Option<ByteText>,
        values: Rows<Expr>,
    },
    /// `$finish`
    Finish,
    /// `$stop`
    Stop,
}

/// An arm of a `case` and the place of its first token. No items means the default.
#[cycle(statement)]
#[derive(Drop)]
pub struct CaseArm {
    pub place: Place,
    pub items: Rows<Expr>,
    pub body: Stmt,
}
