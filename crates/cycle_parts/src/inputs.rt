ghost use Rattle.std.specs.Prelude.{◌≡◌, ◌≢◌, ℕ};
ghost use Rattle.circuit_run.specs.States.{held};
ghost use Rattle.cov_types.specs.declared.kind.VarKind.TheVariants as var_kind;
ghost use Rattle.design_meaning.specs.Settled.{inputs_in};
ghost use Rattle.design_meaning.specs.SettledLaws.{IsRow};
ghost use Rattle.design_meaning.specs.States.{IsStateOf, var_of};
ghost use Rattle.design_meaning.specs.ValidVariables.{AreInputs};

use design_state::State;
use design_tree::Design;

/// Sets the inputs to the values of a row, and leaves all else.
pub fn take_inputs(design: &Design, values: &[u128], state: &mut State)
    requires inputs { AreInputs design.now }
    requires row { IsRow design.now values.now }
    requires of_design { IsStateOf design.now state.old }
    ensures of_design { IsStateOf design.now state.new }
    ensures inputs { inputs_in design.now state.new ≡ values.now }
    ensures others { (v : ℕ) → (var_of design.now v).kind ≢ var_kind.Input → held state.new v ≡ held state.old v }
{
    let inputs = design.inputs.as_slice();
    for (at, value) in values.iter().enumerate() {
        state.write(inputs[at].var, 0, *value);
    }
}
