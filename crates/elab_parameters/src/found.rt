ghost use Rattle.std.specs.Prelude.{◌≡◌, ℕ, List, ◌∷◌, ◌++◌, [], Some, Ok, IfOk, OnOk};
ghost use Rattle.scope_meaning.specs.Constants as constants;
ghost use Rattle.elab_names.specs.Frames.{IsValue};
ghost use Rattle.elab_faults.proofs.Flaws as flaws;
ghost use Rattle.elab_parameters.specs.Founds as spec;

use cov_types::{ByteText, NoMemory, Rows};
use elab_constants::ConstantValue;
use elab_faults::earlier;
use elab_names::ScopeNames;
use elab_ranges::RangeFault;
use elab_types::Constant;
use std::alloc::Global;

/// The parameters of a declaration that have a constant so far, and the first flaw in the values of the others.
#[derive(Drop)]
pub(crate) struct Found {
    pub constants: Rows<Constant>,
    pub flaw: Option<RangeFault>,
}

/// Makes a constant known in the innermost scope.
fn make_known(
    alloc: Global,
    names: &mut Vec<ScopeNames>,
    name: &[u8],
    value: ConstantValue,
) -> Result<(), NoMemory>
    ensures { OnOk result ((c : constants.Constant) → c.name ≡ name.now → IsValue c value → spec.KnowsMore c names.old.items names.new.items) }
{
    let Some(mut innermost) = names.pop() else {
        return Err(NoMemory);
    };
    innermost.make_known(alloc, name, value)?;
    names.push(innermost)?;
    Ok(())
}

/// One parameter more, which has this value.
fn with_constant(
    alloc: Global,
    names: &mut Vec<ScopeNames>,
    found: Found,
    name: &[u8],
    value: ConstantValue,
) -> Result<Found, NoMemory>
    ensures { IfOk result (λ all. spec.Follows name.now found (Ok value) names.old.items all names.new.items) }
{
    make_known(alloc, names, name, value)?;
    let Found {
        mut constants,
        flaw,
    } = found;
    let name = ByteText::from_slice(alloc, name)?;
    constants.push(Constant {
        name,
        value: value.value,
        signed: value.signed,
    })?;
    Ok(Found { constants, flaw })
}

/// The first of two flaws.
fn sooner(flaw: Option<RangeFault>, other: RangeFault) -> RangeFault
    ensures { Some result ≡ flaws.sooner flaw (Some other) }
{
    match flaw {
        Some(flaw) => earlier(flaw, other),
        None => other,
    }
}

/// One parameter more, in whose value this is wrong.
fn with_flaw(found: Found, flaw: RangeFault) -> Found
    ensures { result ≡ record found { flaw = flaws.sooner found.flaw (Some flaw) } }
{
    let flaw = sooner(found.flaw, flaw);
    Found {
        constants: found.constants,
        flaw: Some(flaw),
    }
}

/// One parameter more: where it has a value its constant is known in the innermost scope.
pub(crate) fn with_parameter(
    alloc: Global,
    names: &mut Vec<ScopeNames>,
    found: Found,
    name: &[u8],
    value: Result<ConstantValue, RangeFault>,
) -> Result<Found, NoMemory>
    ensures { IfOk result (λ all. spec.Follows name.now found value names.old.items all names.new.items) }
{
    match value {
        Ok(value) => with_constant(alloc, names, found, name, value),
        Err(RangeFault::NoMemory) => Err(NoMemory),
        Err(flaw) => Ok(with_flaw(found, flaw)),
    }
}
