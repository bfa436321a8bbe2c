ghost use Rattle.std.specs.Prelude.{◌≡◌};
ghost use Rattle.design_meaning.specs.States.{IsStateOf};

use design_state::State;
use design_tree::Design;

/// Makes a state what another is.
pub fn copy_state(design: &Design, from: &State, to: &mut State)
    requires from { IsStateOf design.now from.now }
    requires to { IsStateOf design.now to.old }
    ensures { to.new ≡ from.now }
{
    to.copy_from(from);
}
