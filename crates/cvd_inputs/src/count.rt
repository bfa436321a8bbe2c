//! The number of input variables.

ghost use Rattle.std.specs.Prelude.{◌≡◌, length};
ghost use Rattle.cvd_text.specs.Sections.{input_numbers};

use cov_types::{Var, VarKind};

/// How many of the variables are inputs.
pub(crate) fn count_inputs(vars: &[Var]) -> usize
    ensures { result ≡ length (input_numbers vars.now) }
{
    let mut count = 0usize;
    for var in vars {
        if var.kind == VarKind::Input {
            count += 1;
        }
    }
    count
}
