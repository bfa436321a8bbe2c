use cov_types::{ByteText, Rows};
use elab_types::Constant;

/// A scope that the walk entered: its number, that of the scope around it, its path, the number of its module, and the
/// number of that module's scope.
#[derive(Drop)]
pub struct Entered {
    pub number: u32,
    pub parent: Option<u32>,
    pub path: ByteText,
    pub in_module: u32,
    pub home: u32,
}

/// What the scope tree has of the walk: a scope, constants of a scope, and a row of a scope.
#[derive(Drop)]
pub enum Record {
    /// A scope is entered.
    Enters(Entered),
    /// A scope has these constants, in order.
    HasConstants {
        scope: u32,
        constants: Rows<Constant>,
    },
    /// A scope has a row: an item, and the scope that it makes.
    HasRow {
        scope: u32,
        item: u32,
        inner: Option<u32>,
    },
}
