ghost use Rattle.std.specs.Prelude.{◌≡◌, ◌<◌, ℕ, true, List, ◌∷◌, Some, IfOk, OnOk, nat_lt};
ghost use Rattle.vlog_tree.specs.declared.module.SourceFile.{SourceFile};
ghost use Rattle.scope_meaning.specs.Heads.{module_named, names_here};
ghost use Rattle.scope_meaning.specs.Overrides.{givens};
ghost use Rattle.scope_meaning.specs.Scope.{Here, At, frames};
ghost use Rattle.scope_meaning.specs.ScopeTrees as trees;
ghost use Rattle.scope_meaning.specs.Visits.{Visits};
ghost use Rattle.elab_modules.specs.Modules.{AreModules};
ghost use Rattle.elab_names.specs.Frames.{AreFrames};
ghost use Rattle.elab_overrides.specs.Given.{AreGiven};
ghost use Rattle.walk_laws.specs.Rest.{Task};
ghost use Rattle.walk_state.specs.declared.left.Left.TheVariants as left;
ghost use Rattle.walk_state.specs.Standing.{IsStanding, IsOnWay};
ghost use Rattle.walk_steps.specs.Steps.{HasStepped};
ghost use Rattle.walk_instances.specs.Made.{IsMaking};

use cov_types::{LimitName, NoMemory};
use elab_modules::Modules;
use elab_names::{ScopeNames, VisibleNames};
use elab_overrides::{Givens, given_values};
use elab_texts::inside;
use elab_types::ElabFault;
use std::alloc::Global;
use vlog_tree::Instance;
use walk_entries::enter_instance;
use walk_state::{Left, MadeBy, Walk};

/// As many scopes as a design may have.
const MOST_SCOPES: u32 = 65_536;

/// The values that instances of an item give, where these names are visible. Nothing is wrong in them: they were read at the
/// item too.
fn values_of(
    alloc: Global,
    table: &Modules<'_>,
    names: &[ScopeNames],
    by: MadeBy<'_>,
) -> Result<Givens, NoMemory>
    ensures { (files : List SourceFile) (here : Here) (at : At) → AreModules files table.now → AreFrames (frames here at) names.now
        → module_named (trees.modules files) by.entry.of.now.name ≡ Some (by.entry.number, by.entry.of.now)
        → IfOk result (AreGiven (givens (names_here here at) by.entry.of.now by.entry.params.now)) }
{
    let visible = VisibleNames::new(names);
    let Some(found) = table.find(by.of.name.as_slice()) else {
        return Err(NoMemory);
    };
    match given_values(alloc, &visible, found.parameters.names(), by.params) {
        Ok(given) => Ok(given),
        Err(_) => Err(NoMemory),
    }
}

/// Enters the module of an instance, behind which others are left.
fn enter_one<'a>(
    alloc: Global,
    table: &Modules<'a>,
    walk: &mut Walk<'a>,
    by: Box<MadeBy<'a>>,
    one: &'a Instance,
    rest: &'a [Instance],
) -> Result<(), NoMemory>
    requires { walk.old.next < 65536 }
    ensures { (files : List SourceFile) (top : List ℕ) (done : Visits) (here : Here) → AreModules files table.now
        → IsMaking (trees.modules files) top done here by.entry.value (one.now ∷ rest.now) walk.old → nat_lt walk.old.next 65536 ≡ true
        → OnOk result (IsOnWay (trees.modules files) top walk.new) }
{
    let of = MadeBy {
        item: by.item,
        of: by.of,
        number: by.number,
        params: by.params,
    };
    let given = values_of(alloc, table, walk.names.as_slice(), of)?;
    let path = inside(alloc, walk.here.path.as_slice(), one.name.name.as_slice())?;
    walk.left.push(Left::Instances { by, made: rest })?;
    enter_instance(alloc, walk, of, path, given)?;
    Ok(())
}

/// Goes on at an instance, behind which others are left, if the design may have one scope more.
fn step_one<'a>(
    alloc: Global,
    table: &Modules<'a>,
    walk: &mut Walk<'a>,
    by: Box<MadeBy<'a>>,
    one: &'a Instance,
    rest: &'a [Instance],
) -> Result<(), ElabFault>
    ensures { (files : List SourceFile) (top : List ℕ) (done : Visits) (here : Here) → AreModules files table.now
        → IsMaking (trees.modules files) top done here by.entry.value (one.now ∷ rest.now) walk.old
        → HasStepped (trees.modules files) top walk.new result }
{
    if walk.next < MOST_SCOPES {
        enter_one(alloc, table, walk, by, one, rest)?;
        return Ok(());
    }
    Err(ElabFault::Limit(LimitName::Scopes))
}

/// Goes on at the instances of an item that are left: in the module of the first of them, or behind the item where there is
/// none. `Limit` where the design has as many scopes as it may have.
pub fn step_instances<'a>(
    alloc: Global,
    table: &Modules<'a>,
    walk: &mut Walk<'a>,
    by: Box<MadeBy<'a>>,
    made: &'a [Instance],
) -> Result<(), ElabFault>
    ensures { (files : List SourceFile) (top : List ℕ) (done : Visits) (here : Here) (at : At) (tasks : List Task) → AreModules files table.now
        → IsStanding (trees.modules files) top done here at tasks (record walk.old { left = left.Instances by.entry made.entry ∷ walk.old.left })
        → HasStepped (trees.modules files) top walk.new result }
{
    match made.split_first() {
        Some(parts) => step_one(alloc, table, walk, by, parts.0, parts.1),
        None => Ok(()),
    }
}
