//! What a variable must be where its number stands.

ghost use Rattle.std.specs.Prelude.{◌≡◌, ◌&&◌};
ghost use Rattle.cvd_text.specs.Targets.{same_kind};
ghost use Rattle.cov_types.specs.declared.kind.VarKind.TheVariants as kind;
ghost use Rattle.design_meaning.specs.States.{var_of};
ghost use Rattle.design_meaning.specs.WellTyped.{is_plain_var};
ghost use Rattle.design_tree.specs.declared.design.Design.{Design};

use cov_types::{Var, VarKind};
use sqlite_items::at;

/// Whether a number is that of a variable of one word.
pub fn is_plain(vars: &[Var], var: u32) -> bool
    ensures { (d : Design) → d.vars ≡ vars.now → result ≡ is_plain_var d var }
{
    match at(vars, var as usize) {
        Some(found) => found.words == 1,
        None => false,
    }
}

/// Whether a number is that of an input variable of one word.
pub fn is_input(vars: &[Var], var: u32) -> bool
    ensures { (d : Design) → d.vars ≡ vars.now → result ≡ (is_plain_var d var && same_kind (var_of d var).kind kind.Input) }
{
    match at(vars, var as usize) {
        Some(found) => found.words == 1 && found.kind == VarKind::Input,
        None => false,
    }
}
