use bit_values::Bits;
use cov_types::{ByteText, Rows};

/// A parameter or the genvar of a pass, with its value (IEEE 1364-2005, module parameters and genvars).
///
/// The value has its size: that of the parameter's type, or of the expression where it has none; a genvar has 32 bits and
/// is signed.
#[derive(Drop)]
pub struct Constant {
    pub name: ByteText,
    pub value: Bits,
    pub signed: bool,
}

/// An item of a scope, and the scope that it makes.
///
/// `item` is its number among all items of its module, counted in preorder from 0, those inside generate constructs
/// included. `scope` is there for an instance and for a chosen or repeated generate block. An item has one row for each
/// instance that it makes, a generate loop one for each pass, a generate `if` one where an arm is chosen and else none, a
/// `generate` region none of its own, and every other item one.
#[derive(Clone, Copy, Debug, PartialEq, Eq)]
pub struct ScopeItem {
    pub item: u32,
    pub scope: Option<u32>,
}

/// An instance of a module, or a generate block (IEEE 1364-2005, hierarchical structures).
///
/// `path` has the names from the top on with `.` between them. `module` is the number of its module among all modules of
/// all files, in their order, from 0; a generate block has that of the module in which it stands. `module_text` is that
/// module's name, with its parameters and their values where it has any. `parent` is the number of the scope around it.
/// `constants` stand in the order of their declarations, the genvar of a pass first, `items` in the order of the walk.
#[derive(Drop)]
pub struct Scope {
    pub path: ByteText,
    pub module: u32,
    pub module_text: ByteText,
    pub parent: Option<u32>,
    pub constants: Rows<Constant>,
    pub items: Rows<ScopeItem>,
}

/// All scopes of a design in the order of the walk: the top first, each before those inside it. A scope's number is its
/// place in this list, from 0.
#[derive(Drop)]
pub struct ScopeTree {
    pub scopes: Rows<Scope>,
}
