use crate::expression::RangeExpr;
use crate::item::Item;
use crate::shared::Shared;
use cov_types::{ByteText, Place, Pragma, Rows};

/// What a port is (IEEE 1364-2005, port declarations).
#[derive(Clone, Copy, Debug, PartialEq, Eq)]
pub enum PortKind {
    /// `input`
    Input,
    /// `output` or `output wire`
    OutputWire,
    /// `output reg`
    OutputReg,
}

/// A port of a module (IEEE 1364-2005, list of port declarations).
///
/// `place` is that of its first token. A port that is a name alone has the kind, sign and range of
/// the port before it, and shares that range with it.
#[derive(Drop)]
pub struct Port {
    pub place: Place,
    pub kind: PortKind,
    pub signed: bool,
    pub range: Option<Shared<RangeExpr>>,
    pub name_place: Place,
    pub name: ByteText,
}

/// A module (IEEE 1364-2005, modules).
///
/// `place` is that of `module` and `last` that of `endmodule`. Each parameter of the header is an
/// item with one name.
#[derive(Drop)]
pub struct Module {
    pub place: Place,
    pub last: Place,
    pub name: ByteText,
    pub params: Rows<Item>,
    pub ports: Rows<Port>,
    pub items: Rows<Item>,
}

/// The modules of a text and its coverage comments (IEEE 1364-2005, source text).
#[derive(Drop)]
pub struct SourceFile {
    pub modules: Rows<Module>,
    pub pragmas: Rows<Pragma>,
}
