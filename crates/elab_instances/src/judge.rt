ghost use Rattle.std.specs.Prelude.{◌≡◌, ℕ, List, [], map, Some, false};
ghost use Rattle.std.specs.List.{filter_map};
ghost use Rattle.vlog_tree.specs.declared.item.Instance.{Instance};
ghost use Rattle.vlog_tree.specs.declared.item.ItemKind.TheOpen as i;
ghost use Rattle.vlog_tree.specs.declared.module.SourceFile.{SourceFile};
ghost use Rattle.scope_meaning.specs.Constants as constants;
ghost use Rattle.scope_meaning.specs.Overrides as overrides;
ghost use Rattle.scope_meaning.specs.Scope.{Here, At, frames};
ghost use Rattle.scope_meaning.specs.Heads.{names_here};
ghost use Rattle.scope_meaning.specs.Standing.{standing_item};
ghost use Rattle.scope_meaning.specs.ScopeRules.{refuses, refusal_at, duplicate};
ghost use Rattle.scope_meaning.specs.ScopeTrees as trees;
ghost use Rattle.scope_meaning.specs.Heads.{module_named};
ghost use Rattle.vlog_tree.specs.declared.module.Module.{Module};
ghost use Rattle.elab_overrides.specs.Overrides.{AreParameters};
ghost use Rattle.scope_meaning.specs.Wanted.{want};
ghost use Rattle.elab_names.specs.Frames.{AreFrames};
ghost use Rattle.elab_overrides.specs.Given.{AreGiven};
ghost use Rattle.elab_faults.specs.Flaws.{Finds, flaws_in};
ghost use Rattle.elab_faults.specs.Judged.{Judges};
ghost use Rattle.elab_modules.specs.Above.{AreAbove};
ghost use Rattle.elab_modules.specs.Modules.{AreModules};
ghost use Rattle.elab_instances.specs.Instances as spec;

use cov_types::{ByteText, Place};
use elab_constants::Names;
use elab_faults::{fault_at, of_constant};
use elab_modules::{FoundModule, Modules, OpenModules};
use elab_names::{ScopeNames, VisibleNames};
use elab_overrides::{Givens, given_values};
use elab_ranges::RangeFault;
use elab_types::ElabFault;
use std::alloc::Global;
use vlog_tree::Conns;

/// The number of the module that instances make, and the values that they give to its parameters.
#[derive(Drop)]
pub struct MadeOf {
    pub number: usize,
    pub given: Givens,
}

/// The values that an instance gives, or the first thing that is wrong in them.
fn values<N: Names>(
    alloc: Global,
    names: &N,
    parameters: &[ByteText],
    params: &Conns,
) -> Result<Givens, RangeFault>
    ensures { (known : constants.Names) → N.environment names.now ≡ constants.constants known
        → Finds (AreGiven (filter_map (overrides.given_of known) (overrides.pairs parameters.now params.now)))
        (flaws_in (map (want known) (overrides.expressions params.now))) result }
{
    match given_values(alloc, names, parameters, params) {
        Ok(given) => Ok(given),
        Err(fault) => Err(of_constant(fault)),
    }
}

/// Why an instance of no module is refused.
fn of_unknown(place: Place, values: Result<Givens, RangeFault>) -> ElabFault
    ensures { result ≡ spec.of_unknown place values }
{
    match values {
        Ok(_) => ElabFault::UnknownModule(place),
        Err(fault) => fault_at(place, fault),
    }
}

/// Whether values for the parameters of a module are bad.
fn is_bad(alloc: Global, found: FoundModule<'_>, params: &Conns) -> Result<bool, ElabFault>
    ensures { (names : List (List ℕ)) → AreParameters names found.entry.parameters.now → spec.IsBad (overrides.are_bad names params.now) result }
{
    match found.parameters.refuse(alloc, params) {
        Ok(is_bad) => Ok(is_bad),
        Err(_) => Err(ElabFault::NoMemory),
    }
}

/// What instances make, unless values for parameters are bad or the module is one of those around.
fn refused(
    place: Place,
    is_bad: Result<bool, ElabFault>,
    is_inner: bool,
    made: MadeOf,
) -> Result<MadeOf, ElabFault>
    ensures { result ≡ spec.refused place is_bad is_inner made }
{
    match is_bad {
        Ok(is_bad) => {
            if is_bad {
                return Err(ElabFault::BadOverride(place));
            }
            if is_inner {
                return Err(ElabFault::Recursive(place));
            }
            Ok(made)
        }
        Err(fault) => Err(fault),
    }
}

/// Why instances of a module are refused, or what they make.
fn of_module(
    alloc: Global,
    above: &OpenModules,
    place: Place,
    found: FoundModule<'_>,
    params: &Conns,
    values: Result<Givens, RangeFault>,
) -> Result<MadeOf, ElabFault>
    ensures { (design : List Module) (here : Here) (at : At) (ns : List (List ℕ)) (of : List ℕ) (made : List Instance) (m : Module)
        → AreAbove design here.above above.now → module_named design of ≡ Some (found.entry.number, m)
        → AreParameters (overrides.parameters m) found.entry.parameters.now
        → refuses design (standing_item here at place ns (i.Instances of params.now made)) duplicate ≡ false
        → Finds (AreGiven (overrides.givens (names_here here at) m params.now))
        (flaws_in (map (want (names_here here at)) (overrides.expressions params.now))) values
        → Judges (spec.IsMadeOf design (names_here here at) of params.now)
        (refusal_at design (standing_item here at place ns (i.Instances of params.now made))) result }
{
    let given = match values {
        Ok(given) => given,
        Err(fault) => return Err(fault_at(place, fault)),
    };
    let is_inner = above.contains(found.number);
    let made = MadeOf {
        number: found.number,
        given,
    };
    refused(place, is_bad(alloc, found, params), is_inner, made)
}

/// What instances make, whose names stand nowhere before in their scope, or why they are refused.
pub fn judge_instances(
    alloc: Global,
    modules: &Modules<'_>,
    above: &OpenModules,
    names: &[ScopeNames],
    place: Place,
    of: &[u8],
    params: &Conns,
) -> Result<MadeOf, ElabFault>
    ensures { (files : List SourceFile) (here : Here) (at : At) (ns : List (List ℕ)) (made : List Instance) → AreModules files modules.now
        → AreAbove (trees.modules files) here.above above.now → AreFrames (frames here at) names.now
        → refuses (trees.modules files) (standing_item here at place ns (i.Instances of.now params.now made)) duplicate ≡ false
        → Judges (spec.IsMadeOf (trees.modules files) (names_here here at) of.now params.now)
        (refusal_at (trees.modules files) (standing_item here at place ns (i.Instances of.now params.now made))) result }
{
    let visible = VisibleNames::new(names);
    match modules.find(of) {
        Some(found) => {
            let given = values(alloc, &visible, found.parameters.names(), params);
            of_module(alloc, above, place, found, params, given)
        }
        None => Err(of_unknown(place, values(alloc, &visible, &[], params))),
    }
}
