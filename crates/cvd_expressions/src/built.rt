ghost use Rattle.std.specs.Prelude.{◌≤◌};

use design_tree::Typed;
use sqlite_items::Boxed;

/// An expression with its width and its depth.
#[derive(Drop)]
pub(crate) struct Built {
    pub(crate) tree: Boxed<Typed>,
    pub(crate) width: u8,
    pub(crate) depth: u16,
    ghost shallow: { depth ≤ 2000 },
}
