ghost use Rattle.std.specs.Prelude.{◌≡◌, List};
ghost use Rattle.scope_meaning.specs.Constants.{constants};
ghost use Rattle.scope_meaning.specs.Scope.{Frame, meaning_of, constants_at, is_free_genvar};
ghost use Rattle.elab_names.specs.Meanings.{meaning_by, environment_by, is_genvar};
ghost use Rattle.elab_names.specs.Frames.{AreFrames};

use crate::scope_names::{NameMeaning, ScopeNames};
use elab_constants::{ConstantValue, Names};

/// The names that are visible at a place: those of its scope and of the scopes around it to its module's, the outermost
/// first.
#[derive(Clone, Copy)]
pub struct VisibleNames<'a> {
    scopes: &'a [ScopeNames],
}

fn is_genvar(meant: Option<NameMeaning>) -> bool
    ensures { result ≡ is_genvar meant }
{
    match meant {
        Some(NameMeaning::Genvar) => true,
        _ => false,
    }
}

impl<'a> VisibleNames<'a> {
    /// The names of these scopes, each inside the one before it.
    pub fn new(scopes: &'a [ScopeNames]) -> VisibleNames<'a>
        ensures environment { (fs : List Frame) → AreFrames fs scopes.now → environment_by result.scopes.now ≡ constants (constants_at fs) }
        ensures frames { (fs : List Frame) → AreFrames fs scopes.now → AreFrames fs result.scopes.now }
    {
        VisibleNames { scopes }
    }

    /// What a name means.
    fn meaning(&self, name: &[u8]) -> Option<NameMeaning>
        ensures { result ≡ meaning_by self.now.scopes.now name.now }
    {
        let mut meant = None;
        for scope in self.scopes {
            meant = scope.meaning(name, meant);
        }
        meant
    }

    /// Whether a name means a genvar that has no value there.
    pub fn is_free_genvar(&self, name: &[u8]) -> bool
        ensures { (fs : List Frame) → AreFrames fs self.now.scopes.now → result ≡ is_free_genvar (meaning_of fs name.now) }
    {
        is_genvar(self.meaning(name))
    }
}

impl Names for VisibleNames<'_> {
    ghost environment = { λ names. environment_by names.scopes.now };

    fn constant(&self, name: &[u8]) -> Option<ConstantValue> {
        match self.meaning(name) {
            Some(NameMeaning::Constant(value)) => Some(value),
            _ => None,
        }
    }
}
