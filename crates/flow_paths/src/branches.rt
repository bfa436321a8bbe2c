ghost use Rattle.std.specs.Prelude.{◌≡◌, ◌≤◌, ◌||◌, ◌&&◌, not, drop, take as first, length, IfOk};
ghost use Rattle.circuit_run.specs.States.{Bit};
ghost use Rattle.flow_marks.specs.Slots.{IsIn};
ghost use Rattle.flow_marks.specs.Sets.{has};
ghost use Rattle.flow_marks.specs.Takes.{AreIn, is_listed};
ghost use Rattle.flow_paths.specs.Walking.{IsEmpty, IsBack, IsCommon, TakesAll};

use crate::walk::Walk;
use cov_types::NoMemory;
use flow_marks::{Marks, Spot, take, undo};
use std::alloc::Global;

/// These bits once more.
fn copied(alloc: Global, spots: &[Spot]) -> Result<Vec<Spot>, NoMemory>
    ensures { IfOk result (λ v. v.items ≡ spots.now) }
{
    let mut all = Vec::new(alloc);
    for spot in spots {
        all.push(*spot)?;
    }
    Ok(all)
}

/// What was taken since the trail had this length. It is left again.
pub(crate) fn put_back(alloc: Global, walk: &mut Walk, from: usize) -> Result<Vec<Spot>, NoMemory>
    requires inside { AreIn walk.old.left.slots walk.old.trail.items }
    requires length { from ≤ length walk.old.trail.items }
    ensures { IfOk result (λ taken. IsBack walk.old walk.new from taken.items) }
{
    let taken = copied(alloc, &walk.trail[from..])?;
    undo(&mut walk.left, &mut walk.trail, from);
    Ok(taken)
}

/// Puts bits into a set.
fn add_spots(marks: &mut Marks, spots: &[Spot])
    requires { AreIn marks.old.slots spots.now }
    ensures slots { marks.new.slots ≡ marks.old.slots }
    ensures bits { (b : Bit) → IsIn marks.old.slots b → has marks.new b ≡ (is_listed spots.now b || has marks.old b) }
{
    for spot in spots {
        marks.add(spot.var, spot.word, spot.place);
    }
}

/// Takes bits out of a set.
fn remove_spots(marks: &mut Marks, spots: &[Spot])
    requires { AreIn marks.old.slots spots.now }
    ensures slots { marks.new.slots ≡ marks.old.slots }
    ensures bits { (b : Bit) → IsIn marks.old.slots b → has marks.new b ≡ (not (is_listed spots.now b) && has marks.old b) }
{
    for spot in spots {
        marks.remove(spot.var, spot.word, spot.place);
    }
}

/// Those of the bits that are in a set.
fn those_in(alloc: Global, spots: &[Spot], marks: &Marks) -> Result<Vec<Spot>, NoMemory>
    requires { AreIn marks.now.slots spots.now }
    ensures inside { IfOk result (λ v. AreIn marks.now.slots v.items) }
    ensures bits { IfOk result (λ v. (b : Bit) → is_listed v.items b ≡ (is_listed spots.now b && has marks.now b)) }
{
    let mut all = Vec::new(alloc);
    for spot in spots {
        if marks.has(spot.var, spot.word, spot.place) {
            all.push(*spot)?;
        }
    }
    Ok(all)
}

/// The bits that stand in both lists. The set has no bits, before and after.
pub(crate) fn common(
    alloc: Global,
    one: &[Spot],
    other: &[Spot],
    spare: &mut Marks,
) -> Result<Vec<Spot>, NoMemory>
    requires empty { IsEmpty spare.old }
    requires one { AreIn spare.old.slots one.now }
    requires other { AreIn spare.old.slots other.now }
    ensures { IfOk result (λ both. IsCommon spare.old spare.new one.now other.now both.items) }
{
    add_spots(spare, one);
    let both = those_in(alloc, other, spare)?;
    remove_spots(spare, one);
    Ok(both)
}

/// Takes bits out of those that are left.
pub(crate) fn take_all(walk: &mut Walk, spots: &[Spot]) -> Result<(), NoMemory>
    requires { AreIn walk.old.left.slots spots.now }
    ensures { IfOk result (λ _. TakesAll walk.old walk.new spots.now) }
{
    for spot in spots {
        take(&mut walk.left, *spot, &mut walk.trail)?;
    }
    Ok(())
}
