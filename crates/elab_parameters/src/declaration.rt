ghost use Rattle.std.specs.Prelude.{◌≡◌, ℕ, List, map, false, IfOk, Err};
ghost use Rattle.std.specs.List.{flat_map};
ghost use Rattle.vlog_tree.specs.declared.item.ItemKind.TheOpen as i;
ghost use Rattle.vlog_tree.specs.declared.item.ParamForm.{ParamForm as Form};
ghost use Rattle.vlog_tree.specs.declared.module.Module.{Module};
ghost use Rattle.scope_meaning.specs.Constants as constants;
ghost use Rattle.scope_meaning.specs.Heads.{names_here};
ghost use Rattle.scope_meaning.specs.Scope.{Here, At, frames};
ghost use Rattle.scope_meaning.specs.ScopeRules.{refuses, refusal_at, duplicate};
ghost use Rattle.scope_meaning.specs.Standing.{standing_item};
ghost use Rattle.scope_meaning.specs.Wanted.{want, own_value};
ghost use Rattle.elab_names.specs.Frames.{AreFrames};
ghost use Rattle.elab_overrides.specs.Given.{AreGiven};
ghost use Rattle.elab_faults.specs.Flaws.{Finds, flaws_in};
ghost use Rattle.elab_faults.specs.Judged.{Judges, Nothing};
ghost use Rattle.elab_places.specs.Places.{at_place};
ghost use Rattle.elab_parameters.specs.Forms.{HasSize};
ghost use Rattle.elab_parameters.specs.Declarations as spec;

use crate::form::{FormSize, form_size};
use crate::found::{Found, with_parameter};
use crate::value::parameter_value;
use cov_types::{NoMemory, Place, Rows};
use elab_constants::{ConstantValue, Names};
use elab_faults::{both, earlier, fault_at};
use elab_names::{ScopeNames, VisibleNames};
use elab_overrides::Givens;
use elab_ranges::RangeFault;
use elab_types::{Constant, ElabFault};
use std::alloc::Global;
use vlog_tree::{ParamForm, ParamName};

/// The parameters of a declaration whose form gives this size and sign, each read where those before it are known.
fn read_parameters(
    alloc: Global,
    names: &mut Vec<ScopeNames>,
    given: &Givens,
    local: bool,
    size: FormSize,
    declared: &[ParamName],
) -> Result<Found, NoMemory>
    ensures { (here : Here) (at : At) (before : constants.Names) (form : Form) → AreFrames (frames here at) names.old.items → AreGiven here.given given.now
        → HasSize before form size → IfOk result (λ found. spec.AreRead here at before local form declared.now found names.new.items) }
{
    let mut found = Found {
        constants: Rows::new(alloc),
        flaw: None,
    };
    for of in declared {
        let visible = VisibleNames::new(names.as_slice());
        let value = parameter_value(alloc, &visible, given, local, size, of);
        found = with_parameter(alloc, names, found, of.name.name.as_slice(), value)?;
    }
    Ok(found)
}

/// Nothing, or what hinders one of two.
fn also(
    so_far: Result<(), RangeFault>,
    value: Result<ConstantValue, RangeFault>,
) -> Result<(), RangeFault>
    ensures { result ≡ spec.also so_far value }
{
    match both(so_far, value) {
        Ok(both) => Ok(both.0),
        Err(fault) => Err(fault),
    }
}

/// What is wrong in the values of a declaration none of whose parameters has a constant.
fn value_flaws<N: Names>(
    alloc: Global,
    names: &N,
    given: &Givens,
    local: bool,
    declared: &[ParamName],
) -> Result<(), RangeFault>
    ensures { (here : Here) (known : constants.Names) → N.environment names.now ≡ constants.constants known → AreGiven here.given given.now
        → Finds Nothing (flaws_in (map (want known) (flat_map (own_value here local) declared.now))) result }
{
    let mut so_far = Ok(());
    for of in declared {
        so_far = also(
            so_far,
            parameter_value(alloc, names, given, local, FormSize::Own, of),
        );
    }
    so_far
}

/// The constants, or the first flaw.
fn constants_of(found: Result<Found, NoMemory>) -> Result<Rows<Constant>, RangeFault>
    ensures { result ≡ spec.constants_found found }
{
    match found {
        Ok(found) => match found.flaw {
            Some(flaw) => Err(flaw),
            None => Ok(found.constants),
        },
        Err(_) => Err(RangeFault::NoMemory),
    }
}

/// The first flaw of a form and of values.
fn with_values(flaw: RangeFault, values: Result<(), RangeFault>) -> RangeFault
    ensures { result ≡ spec.with_values flaw values }
{
    match values {
        Ok(()) => flaw,
        Err(other) => earlier(flaw, other),
    }
}

/// The constants that a declaration of parameters declares, which are known then in the innermost scope, or the first flaw.
fn declared_constants(
    alloc: Global,
    names: &mut Vec<ScopeNames>,
    given: &Givens,
    local: bool,
    form: &ParamForm,
    declared: &[ParamName],
) -> Result<Rows<Constant>, RangeFault>
    ensures { (here : Here) (at : At) → AreFrames (frames here at) names.old.items → AreGiven here.given given.now
        → Finds (spec.AreDeclared here at local form.now declared.now names.new.items)
        (spec.declaration_flaws here at local form.now declared.now) result }
{
    let visible = VisibleNames::new(names.as_slice());
    match form_size(alloc, &visible, form) {
        Ok(size) => constants_of(read_parameters(alloc, names, given, local, size, declared)),
        Err(flaw) => Err(with_values(flaw, value_flaws(alloc, &visible, given, local, declared))),
    }
}

/// What was found at a place, its fault with the place.
fn at_place(
    place: Place,
    found: Result<Rows<Constant>, RangeFault>,
) -> Result<Rows<Constant>, ElabFault>
    ensures { result ≡ at_place place found }
{
    match found {
        Ok(found) => Ok(found),
        Err(fault) => Err(fault_at(place, fault)),
    }
}

/// The constants that a declaration of parameters declares, whose names stand nowhere before in their scope, or why it is
/// refused.
///
/// `names` are those of the open scopes, the innermost last. Its type is read before all its names, and each of its values
/// where the names before it are known. Behind it they are known in the innermost scope.
pub fn judge_parameters(
    alloc: Global,
    names: &mut Vec<ScopeNames>,
    given: &Givens,
    place: Place,
    local: bool,
    form: &ParamForm,
    declared: &[ParamName],
) -> Result<Rows<Constant>, ElabFault>
    ensures { (design : List Module) (here : Here) (at : At) (ns : List (List ℕ)) → AreFrames (frames here at) names.old.items
        → AreGiven here.given given.now
        → refuses design (standing_item here at place ns (i.Parameter local form.now declared.now)) duplicate ≡ false
        → Judges (spec.AreDeclared here at local form.now declared.now names.new.items)
        (refusal_at design (standing_item here at place ns (i.Parameter local form.now declared.now))) result }
{
    at_place(
        place,
        declared_constants(alloc, names, given, local, form, declared),
    )
}
