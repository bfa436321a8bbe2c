ghost use Rattle.std.specs.Prelude.{◌≡◌, ◌<◌, ℕ, true, List, ◌∷◌, Option, Some, OnOk, MatchOption, nat_lt, ◌+◌};
ghost use Rattle.vlog_tree.specs.declared.module.Module.{Module};
ghost use Rattle.vlog_tree.specs.declared.item.Item as tree;
ghost use Rattle.vlog_tree.specs.declared.item.GenArm as arm;
ghost use Rattle.vlog_tree.specs.declared.item.GenBody as body;
ghost use Rattle.vlog_tree.specs.declared.item.ItemKind.TheOpen as i;
ghost use Rattle.vlog_tree.specs.Trees.{layer};
ghost use Rattle.scope_meaning.specs.Scope.{Here, At, Frame};
ghost use Rattle.scope_meaning.specs.Heads.{names_here, choice_from};
ghost use Rattle.scope_meaning.specs.Visits.{Visits, with_next};
ghost use Rattle.elab_names.specs.Frames.{AreFrames, IsFrame};
ghost use Rattle.walk_laws.specs.Rest.{Task};
ghost use Rattle.walk_state.specs.Standing.{IsOnWay, IsTaken};
ghost use Rattle.walk_steps.specs.Steps.{IsBegun, HasStepped};

use cov_types::{LimitName, NoMemory};
use elab_blocks::block_name;
use elab_heads::ChosenBody;
use elab_names::ScopeNames;
use elab_places::judge_choice;
use elab_texts::inside;
use elab_types::ElabFault;
use std::alloc::Global;
use vlog_tree::{GenArm, GenBody, Item};
use walk_entries::enter_block;
use walk_moves::number_after;
use walk_state::Walk;

/// As many scopes as a design may have.
const MOST_SCOPES: u32 = 65_536;

/// The names of the innermost scope.
fn innermost(names: &[ScopeNames]) -> Option<&ScopeNames>
    ensures { MatchOption result (Unit {0}) (λ own. (f : Frame) (fs : List Frame) → AreFrames (f ∷ fs) names.now → IsFrame f own.now) }
{
    names.last()
}

/// Enters the block of the chosen arm of a generate `if` of this number, before which so many generate constructs stand.
fn enter_arm<'a>(
    alloc: Global,
    walk: &mut Walk<'a>,
    number: u32,
    before: u32,
    chosen: ChosenBody<'a>,
) -> Result<(), NoMemory>
    requires { walk.old.next < 65536 }
    ensures { (design : List Module) (top : List ℕ) (done : Visits) (here : Here) (at : At) (a : tree.Item) (rest : List tree.Item) (under : List Task)
        (arms : List arm.GenArm) (last : Option body.GenBody)
        → IsBegun design top done here at a rest under walk.old → number ≡ at.item → before ≡ at.construct
        → IsTaken design here (with_next at walk.old.next) a → layer a ≡ i.Choose arms last
        → choice_from (names_here here at) (at.item + 1) arms last ≡ Some (Some (chosen.entry.first, chosen.entry.body.now))
        → nat_lt walk.old.next 65536 ≡ true → OnOk result (IsOnWay design top walk.new) }
{
    let construct = number_after(before)?;
    let Some(own) = innermost(walk.names.as_slice()) else {
        return Err(NoMemory);
    };
    let name = block_name(alloc, own, construct, &chosen.body.name)?;
    let path = inside(alloc, walk.here.path.as_slice(), name.as_slice())?;
    let items = chosen.body.items.as_slice();
    enter_block(alloc, walk, number, chosen.first, path, None, items)?;
    Ok(())
}

/// Goes into the block of the chosen arm, where there is room for one more scope.
fn into_arm<'a>(
    alloc: Global,
    walk: &mut Walk<'a>,
    number: u32,
    before: u32,
    chosen: ChosenBody<'a>,
) -> Result<(), ElabFault>
    ensures { (design : List Module) (top : List ℕ) (done : Visits) (here : Here) (at : At) (a : tree.Item) (rest : List tree.Item) (under : List Task)
        (arms : List arm.GenArm) (last : Option body.GenBody)
        → IsBegun design top done here at a rest under walk.old → number ≡ at.item → before ≡ at.construct
        → IsTaken design here (with_next at walk.old.next) a → layer a ≡ i.Choose arms last
        → choice_from (names_here here at) (at.item + 1) arms last ≡ Some (Some (chosen.entry.first, chosen.entry.body.now))
        → HasStepped design top walk.new result }
{
    if walk.next < MOST_SCOPES {
        enter_arm(alloc, walk, number, before, chosen)?;
        return Ok(());
    }
    Err(ElabFault::Limit(LimitName::Scopes))
}

/// Goes on from a generate `if` of this number, before which so many generate constructs stand: into the block of the arm
/// that is chosen, or behind it where none is.
pub fn into_choice<'a>(
    alloc: Global,
    walk: &mut Walk<'a>,
    item: &Item,
    number: u32,
    before: u32,
    arms: &'a [GenArm],
    last: &'a Option<GenBody>,
) -> Result<(), ElabFault>
    ensures { (design : List Module) (top : List ℕ) (done : Visits) (here : Here) (at : At) (rest : List tree.Item) (under : List Task)
        → IsBegun design top done here at item.now rest under walk.old → number ≡ at.item → before ≡ at.construct
        → layer item.now ≡ i.Choose arms.now last.now → HasStepped design top walk.new result }
{
    let first = number_after(number)?;
    match judge_choice(alloc, walk.names.as_slice(), item.place, first, arms, last) {
        Ok(chosen) => match chosen {
            Some(chosen) => into_arm(alloc, walk, number, before, chosen),
            None => Ok(()),
        },
        Err(fault) => Err(fault),
    }
}
