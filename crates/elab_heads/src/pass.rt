ghost use Rattle.std.specs.Prelude.{◌≡◌, List};
ghost use Rattle.scope_meaning.specs.Constants.{constants};
ghost use Rattle.scope_meaning.specs.Scope.{Frame, constants_at, with_genvar};
ghost use Rattle.elab_names.specs.Frames.{AreFrames};
ghost use Rattle.elab_heads.specs.Passes.{IsPassValue, environment_of};

use crate::genvar::genvar_value;
use elab_constants::{ConstantValue, Names};
use elab_names::{ScopeNames, VisibleNames};

/// The names in the head of a generate loop: those that are visible at the loop, and where the loop's name is a genvar
/// without a value, a value for it.
#[derive(Clone, Copy)]
pub struct PassNames<'a> {
    outer: VisibleNames<'a>,
    name: &'a [u8],
    value: Option<ConstantValue>,
}

/// The value where it is wanted.
fn value_where(is_free: bool, value: i32) -> Option<ConstantValue>
    ensures { IsPassValue is_free value result }
{
    if is_free {
        return Some(genvar_value(value));
    }
    None
}

impl<'a> PassNames<'a> {
    /// The names in a pass in which the genvar has this value, where these scopes are visible, each inside the one before it.
    pub fn new(scopes: &'a [ScopeNames], name: &'a [u8], value: i32) -> PassNames<'a>
        ensures { (fs : List Frame) → AreFrames fs scopes.now
            → environment_of result ≡ constants (constants_at (with_genvar name.now value fs)) }
    {
        let outer = VisibleNames::new(scopes);
        let is_free = outer.is_free_genvar(name);
        let value = value_where(is_free, value);
        PassNames { outer, name, value }
    }
}

impl Names for PassNames<'_> {
    ghost environment = { λ names. environment_of names };

    fn constant(&self, name: &[u8]) -> Option<ConstantValue> {
        match self.value {
            Some(value) => {
                if name == self.name {
                    return Some(value);
                }
                self.outer.constant(name)
            }
            None => self.outer.constant(name),
        }
    }
}
