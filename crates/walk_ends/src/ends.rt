ghost use Rattle.std.specs.Prelude.{ℕ, List, ◌∷◌};
ghost use Rattle.vlog_tree.specs.declared.module.Module.{Module};
ghost use Rattle.scope_meaning.specs.Scope.{Here, At, Frame};
ghost use Rattle.scope_meaning.specs.Visits.{Visits};
ghost use Rattle.elab_names.specs.Frames.{AreFrames};
ghost use Rattle.walk_laws.specs.Rest.{Task};
ghost use Rattle.walk_state.specs.Standing.{IsStanding, IsOnWay};
ghost use Rattle.walk_state.specs.declared.left.Left.TheVariants as left;

use elab_names::ScopeNames;
use walk_state::{ScopePlace, Walk};

/// Takes the names of the innermost scope away.
fn close_names(names: &mut Vec<ScopeNames>)
    ensures { (fs : List Frame) (f : Frame) → AreFrames (f ∷ fs) names.old.items → AreFrames fs names.new.items }
{
    let open = names.as_slice().len();
    names.truncate(open.saturating_sub(1));
}

/// Ends a generate block; the scope around it goes on at this place.
pub fn end_block(walk: &mut Walk<'_>, around: ScopePlace)
    ensures { (design : List Module) (top : List ℕ) (done : Visits) (here : Here) (at : At) (tasks : List Task)
        → IsStanding design top done here at tasks (record walk.old { left = left.EndOfBlock around ∷ walk.old.left }) → IsOnWay design top walk.new }
{
    close_names(&mut walk.names);
    walk.here = around;
}

/// Ends the scope of the module of a number; the scope of its instance goes on at this place, where these names are visible.
pub fn end_module(walk: &mut Walk<'_>, around: ScopePlace, names: Vec<ScopeNames>, number: u32)
    ensures { (design : List Module) (top : List ℕ) (done : Visits) (here : Here) (at : At) (tasks : List Task)
        → IsStanding design top done here at tasks (record walk.old { left = left.EndOfModule around names number ∷ walk.old.left })
        → IsOnWay design top walk.new }
{
    walk.above.leave(number as usize);
    walk.names = names;
    walk.here = around;
}
