use crate::expression::{Expr, RangeExpr};
use crate::shared::Shared;
use crate::statement::Stmt;
use cov_types::{ByteText, Place, Rows};
use sqlite_items::Items;

/// A declared name and where it stands (IEEE 1364-2005, declarations).
#[derive(Drop)]
pub struct NamePlace {
    pub place: Place,
    pub name: ByteText,
}

/// A wire of a declaration, and the value that drives it (IEEE 1364-2005, net declarations).
#[derive(Drop)]
pub struct WireName {
    pub name: NamePlace,
    pub value: Option<Expr>,
}

/// A reg of a declaration, as a memory of words or with a start value (IEEE 1364-2005, variable
/// declarations).
#[derive(Drop)]
pub struct RegName {
    pub name: NamePlace,
    pub words: Option<RangeExpr>,
    pub start: Option<Expr>,
}

/// The type of a parameter (IEEE 1364-2005, module parameters).
#[derive(Drop)]
pub enum ParamForm {
    /// That of its value.
    Plain,
    /// `integer`
    Integer,
    /// A range, and whether it is `signed`. The names alone after a name of a header share it.
    Ranged {
        signed: bool,
        range: Shared<RangeExpr>,
    },
}

/// A parameter and its value (IEEE 1364-2005, module parameters).
#[derive(Drop)]
pub struct ParamName {
    pub name: NamePlace,
    pub value: Expr,
}

/// A target and the value that drives it (IEEE 1364-2005, continuous assignments).
#[derive(Drop)]
pub struct AssignPart {
    pub target: Expr,
    pub value: Expr,
}

/// A connection by name; it may be left open (IEEE 1364-2005, connecting module instance ports).
#[derive(Drop)]
pub struct NamedConn {
    pub name: ByteText,
    pub value: Option<Expr>,
}

/// The connections of an instance, or the values for its parameters (IEEE 1364-2005, module
/// instances).
#[derive(Drop)]
pub enum Conns {
    /// In the order of the ports; none where none are written.
    Ordered(Rows<Expr>),
    /// By name.
    Named(Rows<NamedConn>),
}

/// An instance of a module (IEEE 1364-2005, module instances).
#[derive(Drop)]
pub struct Instance {
    pub name: NamePlace,
    pub ports: Conns,
}

/// Where a `begin` and its `end` stand.
#[derive(Clone, Copy, Debug, PartialEq, Eq)]
pub struct BlockPlaces {
    pub begin: Place,
    pub end: Place,
}

/// An item of a module and the place of its first token (IEEE 1364-2005, module items).
#[cycle(item)]
#[derive(Drop)]
pub struct Item {
    pub place: Place,
    pub what: ItemKind,
}

/// What an item is (IEEE 1364-2005, module items; IEEE 1800, cover).
#[cycle(item)]
#[derive(Drop)]
pub enum ItemKind {
    /// `wire`
    Wire {
        signed: bool,
        range: Option<RangeExpr>,
        names: Rows<WireName>,
    },
    /// `reg`
    Reg {
        signed: bool,
        range: Option<RangeExpr>,
        names: Rows<RegName>,
    },
    /// `integer`
    Integer(Rows<NamePlace>),
    /// `genvar`
    Genvar(Rows<NamePlace>),
    /// `parameter`, or where it is `local` `localparam`.
    Parameter {
        local: bool,
        form: ParamForm,
        names: Rows<ParamName>,
    },
    /// `assign`
    Assign(Rows<AssignPart>),
    /// `initial`
    Initial(Stmt),
    /// `always` at the rising edge of `clock`, or without one `always @*`.
    Always {
        clock: Option<ByteText>,
        body: Stmt,
    },
    /// `cover property` at the rising edge of `clock`; `word` is the place of the word `cover`.
    Cover {
        word: Place,
        label: Option<NamePlace>,
        clock: ByteText,
        test: Expr,
    },
    /// Instances of one module with the same values for its parameters.
    Instances {
        module: ByteText,
        params: Conns,
        made: Rows<Instance>,
    },
    /// `generate .. endgenerate`
    Generate(Items<Item>),
    /// A generate `for`, with the places of its `begin` and `end`.
    Loop {
        name: ByteText,
        from: Expr,
        test: Expr,
        step_name: ByteText,
        step: Expr,
        block: NamePlace,
        places: BlockPlaces,
        body: Items<Item>,
    },
    /// A generate `if` with all its `else if`, and what the last `else` has.
    Choose {
        arms: Items<GenArm>,
        last: Option<GenBody>,
    },
}

/// A test of a generate `if` and what it chooses (IEEE 1364-2005, conditional generate constructs).
#[cycle(item)]
#[derive(Drop)]
pub struct GenArm {
    pub test: Expr,
    pub body: GenBody,
}

/// What a generate `if` chooses (IEEE 1364-2005, generate blocks).
///
/// A single item has neither a name nor `places`, which are those of `begin` and `end`.
#[cycle(item)]
#[derive(Drop)]
pub struct GenBody {
    pub name: Option<NamePlace>,
    pub places: Option<BlockPlaces>,
    pub items: Items<Item>,
}
