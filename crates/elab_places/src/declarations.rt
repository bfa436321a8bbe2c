ghost use Rattle.std.specs.Prelude.{◌≡◌, ℕ, Bool, List, false, true, if◌then◌else◌};
ghost use Rattle.std.specs.List.{filter_map, list_any};
ghost use Rattle.cov_types.specs.declared.limit.LimitName.TheVariants as limit;
ghost use Rattle.vlog_tree.specs.declared.module.Module.{Module};
ghost use Rattle.vlog_tree.specs.declared.item.ItemKind.TheOpen as i;
ghost use Rattle.vlog_tree.specs.declared.item.WireName.{WireName};
ghost use Rattle.vlog_tree.specs.Trees.{option_list};
ghost use Rattle.scope_meaning.specs.Constants as constants;
ghost use Rattle.scope_meaning.specs.Ranges.{words};
ghost use Rattle.scope_meaning.specs.Scope.{Here, At, frames};
ghost use Rattle.scope_meaning.specs.Standing.{standing_item};
ghost use Rattle.scope_meaning.specs.ScopeRules.{refuses, refusal_at, duplicate, is_past};
ghost use Rattle.elab_names.specs.Frames.{AreFrames};
ghost use Rattle.elab_faults.specs.Flaws.{Finds};
ghost use Rattle.elab_faults.specs.Judged.{Judges, Nothing};
ghost use Rattle.elab_places.specs.Places as spec;

use crate::judged::at_place;
use cov_types::{LimitName, Place};
use elab_constants::Names;
use elab_faults::{both, memory_flaws, start_flaws, vector_flaws};
use elab_names::{ScopeNames, VisibleNames};
use elab_ranges::RangeFault;
use elab_types::ElabFault;
use std::alloc::Global;
use vlog_tree::{RangeExpr, RegName};

/// Why a declaration of wires is refused, whose names stand nowhere before in their scope.
pub fn judge_wire(
    alloc: Global,
    names: &[ScopeNames],
    place: Place,
    range: &Option<RangeExpr>,
) -> Result<(), ElabFault>
    ensures { (design : List Module) (here : Here) (at : At) (ns : List (List ℕ)) (signed : Bool) (wires : List WireName)
        → AreFrames (frames here at) names.now
        → refuses design (standing_item here at place ns (i.Wire signed range.now wires)) duplicate ≡ false
        → Judges Nothing (refusal_at design (standing_item here at place ns (i.Wire signed range.now wires))) result }
{
    let visible = VisibleNames::new(names);
    at_place(place, vector_flaws(alloc, &visible, range))
}

/// Whether a memory of a declaration of regs has more words than are taken, or what is wrong with the declaration.
fn reg_flaws<N: Names>(
    alloc: Global,
    names: &N,
    range: &Option<RangeExpr>,
    regs: &[RegName],
) -> Result<bool, RangeFault>
    ensures { (known : constants.Names) → N.environment names.now ≡ constants.constants known
        → Finds (λ large. large ≡ list_any (λ r. is_past (words known r)) (filter_map (λ r. r.words) regs.now))
        (spec.reg_flaws known (option_list range.now) regs.now) result }
{
    let vector = vector_flaws(alloc, names, range);
    let memories = memory_flaws(alloc, names, regs);
    let starts = start_flaws(alloc, names, regs);
    match both(vector, both(memories, starts)) {
        Ok(all) => Ok(all.1.0),
        Err(fault) => Err(fault),
    }
}

/// Refuses too large memories.
fn limited(large: Result<bool, ElabFault>) -> Result<(), ElabFault>
    ensures { result ≡ spec.limited large }
{
    match large {
        Ok(large) => {
            if large {
                return Err(ElabFault::Limit(LimitName::MemoryWords));
            }
            Ok(())
        }
        Err(fault) => Err(fault),
    }
}

/// Why a declaration of regs is refused, whose names stand nowhere before in their scope.
pub fn judge_reg(
    alloc: Global,
    names: &[ScopeNames],
    place: Place,
    range: &Option<RangeExpr>,
    regs: &[RegName],
) -> Result<(), ElabFault>
    ensures { (design : List Module) (here : Here) (at : At) (ns : List (List ℕ)) (signed : Bool)
        → AreFrames (frames here at) names.now
        → refuses design (standing_item here at place ns (i.Reg signed range.now regs.now)) duplicate ≡ false
        → Judges Nothing (refusal_at design (standing_item here at place ns (i.Reg signed range.now regs.now))) result }
{
    let visible = VisibleNames::new(names);
    limited(at_place(place, reg_flaws(alloc, &visible, range, regs)))
}
