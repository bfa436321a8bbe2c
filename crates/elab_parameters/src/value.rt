ghost use Rattle.std.specs.Prelude.{◌≡◌, ℕ, List, [], ◌∷◌, map, Some};
ghost use Rattle.std.specs.Option.{option_copied};
ghost use Rattle.scope_meaning.specs.Constants as constants;
ghost use Rattle.scope_meaning.specs.Constants.{option_of};
ghost use Rattle.scope_meaning.specs.Ranges.{constant_value};
ghost use Rattle.scope_meaning.specs.Scope.{Here};
ghost use Rattle.scope_meaning.specs.Wanted.{want, own_value};
ghost use Rattle.elab_overrides.specs.Given.{AreGiven, IsGiven};
ghost use Rattle.elab_ranges.specs.Parameters.{named};
ghost use Rattle.elab_faults.specs.Flaws.{Finds, flaws_in};
ghost use Rattle.elab_parameters.specs.Forms.{sized};
ghost use Rattle.elab_parameters.specs.Values as spec;

use crate::form::{FormSize, value_in};
use elab_constants::{ConstantValue, Names, SizedTerm};
use elab_faults::read_constant;
use elab_overrides::Givens;
use elab_ranges::RangeFault;
use std::alloc::Global;
use vlog_tree::{Expr, ParamName};

/// The value that an instance gives to a parameter, unless it is local.
fn given_value<'a>(given: &'a Givens, local: bool, name: &[u8]) -> Option<&'a SizedTerm>
    ensures { (here : Here) → AreGiven here.given given.now → IsGiven (spec.given_value here local name.now) (option_copied result) }
{
    if local {
        return None;
    }
    given.get(name)
}

/// What a parameter of this size and sign has by its own value, or what is wrong in it.
fn own_value<N: Names>(
    alloc: Global,
    names: &N,
    size: FormSize,
    expr: &Expr,
) -> Result<ConstantValue, RangeFault>
    ensures { (known : constants.Names) (name : List ℕ) → N.environment names.now ≡ constants.constants known
        → Finds (λ v. option_of (sized size name) (constant_value known expr.now) ≡ Some (named name v)) (flaws_in (want known expr.now ∷ [])) result }
{
    match read_constant(alloc, names, expr) {
        Ok(term) => Ok(value_in(size, &term)),
        Err(fault) => Err(fault),
    }
}

/// What a parameter has whose form gives this size and sign, or what is wrong in its own value, which isn't read where an
/// instance gives one.
pub(crate) fn parameter_value<N: Names>(
    alloc: Global,
    names: &N,
    given: &Givens,
    local: bool,
    size: FormSize,
    of: &ParamName,
) -> Result<ConstantValue, RangeFault>
    ensures { (here : Here) (known : constants.Names) → N.environment names.now ≡ constants.constants known → AreGiven here.given given.now
        → Finds (spec.IsConstantOf here known local size of.now) (flaws_in (map (want known) (own_value here local of.now))) result }
{
    match given_value(given, local, of.name.name.as_slice()) {
        Some(value) => Ok(value_in(size, value)),
        None => own_value(alloc, names, size, &of.value),
    }
}
