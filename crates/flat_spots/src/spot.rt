use cov_types::Place;
use flat_scopes::PlaceInScope;
use vlog_tree::{Conns, Item, Module, Port};

/// Something that a walk through a design comes to, with the place from which its names are seen.
#[derive(Clone, Copy)]
pub enum Spot<'a> {
    /// A port of the scope.
    Port {
        at: PlaceInScope,
        port: &'a Port,
    },
    /// An item of the scope, one with instances too.
    Item {
        at: PlaceInScope,
        item: &'a Item,
    },
    /// An instance that an item makes, whose place is `place`: the number of its scope, its module and its connections.
    Instance {
        at: PlaceInScope,
        place: Place,
        makes: u32,
        of: &'a Module,
        ports: &'a Conns,
    },
}
