ghost use Rattle.std.specs.Prelude.{◌≡◌};
ghost use Rattle.scope_meaning.specs.Constants.{constants};
ghost use Rattle.scope_meaning.specs.Heads.{names_here};
ghost use Rattle.scope_meaning.specs.Scope.{Here, At, frames};
ghost use Rattle.elab_constants.specs.Names.{IsConstant};
ghost use Rattle.flat_scopes.specs.Frames.{AreFramesAt};
ghost use Rattle.flat_scopes.specs.Meanings.{meaning_by};
ghost use Rattle.flat_kept.specs.Names as spec;

use elab_constants::{ConstantValue, Names};
use flat_scopes::{NameMeaning, PlaceInScope, SeenScopes};

/// The constants that are seen from a place of a design.
#[derive(Clone, Copy)]
pub struct PlaceNames<'a> {
    scopes: &'a SeenScopes,
    at: PlaceInScope,
}

impl<'a> PlaceNames<'a> {
    /// Those of a place.
    pub fn new(scopes: &'a SeenScopes, at: PlaceInScope) -> PlaceNames<'a>
        ensures { (here : Here) (place : At) → AreFramesAt scopes.now.scopes.items at (frames here place)
            → spec.environment_at result ≡ constants (names_here here place) }
    {
        PlaceNames { scopes, at }
    }

    /// The constant that a name means.
    fn constant_meant(&self, name: &[u8]) -> Option<ConstantValue>
        ensures { IsConstant (spec.stands (meaning_by self.now.scopes.now.scopes.items self.now.at name.now)) result }
    {
        match self.scopes.meaning(self.at, name) {
            Some(NameMeaning::Constant(value)) => Some(value),
            Some(NameMeaning::Variable { .. }) => None,
            Some(NameMeaning::Genvar) => None,
            Some(NameMeaning::NoValue) => None,
            None => None,
        }
    }
}

impl Names for PlaceNames<'_> {
    ghost environment = { λ names. spec.environment_at names };

    fn constant(&self, name: &[u8]) -> Option<ConstantValue> {
        self.constant_meant(name)
    }
}
