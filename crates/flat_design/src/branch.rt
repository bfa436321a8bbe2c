ghost use Rattle.std.specs.Prelude.{◌≡◌, ◌==◌, not};
ghost use Rattle.design_meaning.specs.Values.{value_in};
ghost use Rattle.design_state.specs.InDesign.{IsTypedIn};

use design_state::{Position, State, value};
use design_tree::{Typed, TypedBinary};

/// The number of a value. That of a variable or of a number needs no walk through the expression.
fn number_of(e: &Typed, state: &State) -> u128
    requires { IsTypedIn state.now e.now }
    ensures { result ≡ (value_in state.now e.now).number }
{
    match e {
        Typed::Number { value, .. } => *value,
        Typed::Var { var } => state.word(*var, Position::At(0)).bits,
        _ => value(e, state).bits,
    }
}

/// Whether two values are different numbers.
fn differ(left: &Typed, right: &Typed, state: &State) -> bool
    requires left { IsTypedIn state.now left.now }
    requires right { IsTypedIn state.now right.now }
    ensures { result ≡ not ((value_in state.now left.now).number == (value_in state.now right.now).number) }
{
    number_of(left, state) != number_of(right, state)
}

/// Whether the test of a branch is 0. Most tests compare, so they are told from the two numbers alone.
pub(crate) fn is_zero(test: &Typed, state: &State) -> bool
    requires { IsTypedIn state.now test.now }
    ensures { result ≡ ((value_in state.now test.now).number == 0) }
{
    match test {
        Typed::Binary {
            op: TypedBinary::Equal,
            left,
            right,
        } => {
            let first = left.get();
            let second = right.get();
            differ(first, second, state)
        }
        _ => value(test, state).bits == 0,
    }
}
