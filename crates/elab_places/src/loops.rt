ghost use Rattle.std.specs.Prelude.{◌≡◌, ℕ, List, false, Option, Some};
ghost use Rattle.vlog_tree.specs.declared.item.BlockPlaces.{BlockPlaces};
ghost use Rattle.vlog_tree.specs.declared.item.Item.{Item};
ghost use Rattle.vlog_tree.specs.declared.item.ItemKind.TheOpen as i;
ghost use Rattle.vlog_tree.specs.declared.item.NamePlace.{NamePlace};
ghost use Rattle.vlog_tree.specs.declared.module.Module.{Module};
ghost use Rattle.scope_meaning.specs.Scope.{Here, At, frames};
ghost use Rattle.scope_meaning.specs.Heads as heads;
ghost use Rattle.scope_meaning.specs.Standing.{standing_item};
ghost use Rattle.scope_meaning.specs.ScopeRules.{refuses, refusal_at, refusal, duplicate};
ghost use Rattle.scope_meaning.specs.Visits.{sees, a_turn};
ghost use Rattle.elab_names.specs.Frames.{AreFrames};
ghost use Rattle.elab_faults.specs.Judged.{Judges};
ghost use Rattle.scope_meaning.specs.Constants as constants;
ghost use Rattle.elab_types.specs.declared.elab_fault.ElabFault.{ElabFault};
ghost use Rattle.elab_heads.specs.Choices.{IsChoice, Chooses};
ghost use Rattle.elab_places.specs.Places as spec;

use crate::judged::at_place;
use cov_types::Place;
use elab_heads::{
    ChosenBody, LoopHead, PassNames, chosen_body, first_true, loop_head, read_genvar, read_test,
};
use elab_names::{ScopeNames, VisibleNames};
use elab_types::ElabFault;
use std::alloc::Global;
use vlog_tree::{Expr, GenArm, GenBody};

/// Whether the test of a pass of a generate loop holds, or why the place is refused.
pub fn judge_test(
    alloc: Global,
    names: &[ScopeNames],
    place: Place,
    name: &[u8],
    value: i32,
    test: &Expr,
) -> Result<bool, ElabFault>
    ensures { (design : List Module) (here : Here) (at : At) → AreFrames (frames here at) names.now
        → Judges (λ holds. heads.test_of (heads.names_in_pass here at name.now value) test.now ≡ Some holds)
        (refusal design (sees (a_turn place (heads.names_in_pass here at name.now value) test.now))) result }
{
    let pass = PassNames::new(names, name, value);
    at_place(place, read_test(alloc, &pass, test))
}

/// The value of the genvar in the next pass, or why the place is refused.
pub fn judge_step(
    alloc: Global,
    names: &[ScopeNames],
    place: Place,
    name: &[u8],
    value: i32,
    step: &Expr,
) -> Result<i32, ElabFault>
    ensures { (design : List Module) (here : Here) (at : At) → AreFrames (frames here at) names.now
        → Judges (λ next. heads.genvar_value (heads.names_in_pass here at name.now value) step.now ≡ Some next)
        (refusal design (sees (a_turn place (heads.names_in_pass here at name.now value) step.now))) result }
{
    let pass = PassNames::new(names, name, value);
    at_place(place, read_genvar(alloc, &pass, step))
}

/// Refuses a head whose names aren't one genvar without a value.
fn checked<T: Drop>(place: Place, first: Result<T, ElabFault>, is_bad: bool) -> Result<T, ElabFault>
    ensures { result ≡ spec.checked place first is_bad }
{
    match first {
        Ok(first) => {
            if is_bad {
                return Err(ElabFault::BadGenvar(place));
            }
            Ok(first)
        }
        Err(fault) => Err(fault),
    }
}

/// Whether the names of a head aren't one genvar without a value.
fn is_bad_head(visible: &VisibleNames<'_>, head: &LoopHead<'_>) -> bool
    ensures { (here : Here) (at : At) → AreFrames (frames here at) visible.now.scopes.now
        → result ≡ spec.is_bad_head (frames here at) head.now.name.now head.now.step_name.now }
{
    head.name != head.step_name || !visible.is_free_genvar(head.name)
}

/// The first value of a generate loop, whose block's name stands nowhere before in its scope, or why it is refused.
pub fn judge_loop(
    alloc: Global,
    names: &[ScopeNames],
    place: Place,
    head: LoopHead<'_>,
) -> Result<i32, ElabFault>
    ensures { (design : List Module) (here : Here) (at : At) (ns : List (List ℕ)) (block : NamePlace) (places : BlockPlaces) (body : List Item)
        → AreFrames (frames here at) names.now
        → refuses design (standing_item here at place ns
        (i.Loop head.entry.name.now head.entry.from.now head.entry.test.now head.entry.step_name.now head.entry.step.now block places body)) duplicate
        ≡ false
        → Judges (λ first. heads.genvar_value (heads.names_here here at) head.entry.from.now ≡ Some first)
        (refusal_at design (standing_item here at place ns
        (i.Loop head.entry.name.now head.entry.from.now head.entry.test.now head.entry.step_name.now head.entry.step.now block places body))) result }
{
    let visible = VisibleNames::new(names);
    let is_bad = is_bad_head(&visible, &head);
    checked(
        place,
        at_place(place, loop_head(alloc, names, head)),
        is_bad,
    )
}

/// The body of the arm that was chosen.
fn of_chosen<'a>(
    first: u32,
    arms: &'a [GenArm],
    last: &'a Option<GenBody>,
    chosen: Option<usize>,
) -> Result<Option<ChosenBody<'a>>, ElabFault>
    ensures { (known : constants.Names) → Chooses known arms.now chosen
        → spec.IsStored (IsChoice (heads.choice_from known first arms.now last.now)) result }
{
    match chosen_body(first, arms, last, chosen) {
        Ok(body) => Ok(body),
        Err(_) => Err(ElabFault::NoMemory),
    }
}

/// The body of the arm that was chosen, or why the place is refused.
fn chosen_at<'a>(
    first: u32,
    arms: &'a [GenArm],
    last: &'a Option<GenBody>,
    chosen: Result<Option<usize>, ElabFault>,
) -> Result<Option<ChosenBody<'a>>, ElabFault>
    ensures { (known : constants.Names) (refused : Option ElabFault) → Judges (Chooses known arms.now) refused chosen
        → Judges (IsChoice (heads.choice_from known first arms.now last.now)) refused result }
{
    match chosen {
        Ok(chosen) => of_chosen(first, arms, last, chosen),
        Err(fault) => Err(fault),
    }
}

/// What a generate `if` chooses, whose blocks' names stand nowhere before in its scope, or why it is refused. `first` is the
/// number of the first item of its arms.
pub fn judge_choice<'a>(
    alloc: Global,
    names: &[ScopeNames],
    place: Place,
    first: u32,
    arms: &'a [GenArm],
    last: &'a Option<GenBody>,
) -> Result<Option<ChosenBody<'a>>, ElabFault>
    ensures { (design : List Module) (here : Here) (at : At) (ns : List (List ℕ)) → AreFrames (frames here at) names.now
        → refuses design (standing_item here at place ns (i.Choose arms.now last.now)) duplicate ≡ false
        → Judges (IsChoice (heads.choice_from (heads.names_here here at) first arms.now last.now))
        (refusal_at design (standing_item here at place ns (i.Choose arms.now last.now))) result }
{
    let visible = VisibleNames::new(names);
    chosen_at(
        first,
        arms,
        last,
        at_place(place, first_true(alloc, &visible, arms)),
    )
}
