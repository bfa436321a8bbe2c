use elab_constants::{ConstantValue, Names};

/// Names of which none stands for anything.
pub(crate) struct Nameless;

impl Names for Nameless {
    ghost use Rattle.lower_meaning.specs.Constants.{nameless};

    ghost environment = { λ _. nameless };

    fn constant(&self, _name: &[u8]) -> Option<ConstantValue> {
        None
    }
}
