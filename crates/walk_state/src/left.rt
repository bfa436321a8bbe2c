use crate::place::ScopePlace;
use cov_types::Place;
use elab_names::ScopeNames;
use vlog_tree::{Conns, Expr, Instance, Item, Module, Port};

/// A generate loop that is being walked: the place and number of its item, its genvar, the expressions of its head, and the
/// name and items of its block.
#[derive(Clone, Copy)]
pub struct LoopPasses<'a> {
    pub place: Place,
    pub item: u32,
    pub name: &'a [u8],
    pub test: &'a Expr,
    pub step: &'a Expr,
    pub block: &'a [u8],
    pub body: &'a [Item],
}

/// What instances of one item have in common: the number of the item, their module and its number, and the values that
/// they give.
#[derive(Clone, Copy)]
pub struct MadeBy<'a> {
    pub item: u32,
    pub of: &'a Module,
    pub number: u32,
    pub params: &'a Conns,
}

/// Something that is left to do on the walk.
#[derive(Drop)]
pub enum Left<'a> {
    /// The rest of the header of a module.
    Header {
        of: &'a Module,
        items: &'a [Item],
    },
    /// The rest of the ports of a module.
    Ports {
        of: &'a Module,
        ports: &'a [Port],
    },
    /// Items of the scope.
    Items {
        items: &'a [Item],
    },
    /// The passes of a generate loop, its genvar having a value.
    Turn {
        passes: Box<LoopPasses<'a>>,
        value: i32,
    },
    /// The passes of a generate loop behind the block of the pass with a value.
    Step {
        passes: Box<LoopPasses<'a>>,
        value: i32,
    },
    /// Instances of an item.
    Instances {
        by: Box<MadeBy<'a>>,
        made: &'a [Instance],
    },
    /// A generate block ends, and the scope around it goes on.
    EndOfBlock {
        around: ScopePlace,
    },
    /// The scope of a module ends, and the scope of its instance goes on.
    EndOfModule {
        around: ScopePlace,
        names: Vec<ScopeNames>,
        number: u32,
    },
}
