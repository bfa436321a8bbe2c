ghost use Rattle.std.specs.Prelude.{◌≡◌, ℕ, List, ◌∷◌, []};
ghost use Rattle.vlog_tree.specs.declared.module.Module as whole;
ghost use Rattle.vlog_tree.specs.declared.module.Port as tree;
ghost use Rattle.scope_meaning.specs.Scope.{Here, At};
ghost use Rattle.scope_meaning.specs.Visits.{Visits};
ghost use Rattle.walk_laws.specs.Rest.{Task, some_ports};
ghost use Rattle.walk_state.specs.declared.left.Left.TheVariants as left;
ghost use Rattle.walk_state.specs.Standing.{IsStanding};
ghost use Rattle.walk_modules.specs.Openings.{IsOpening};
ghost use Rattle.walk_steps.specs.Steps.{HasStepped};
ghost use Rattle.walk_headers.specs.Headers.{IsNamed, HasNamed};

use elab_blocks::stands_twice;
use elab_places::judge_port;
use elab_types::ElabFault;
use std::alloc::Global;
use vlog_tree::{Module, Port};
use walk_modules::{past_port, to_body};
use walk_state::Walk;

/// Puts the name of a port among those that stand in the scope. `Duplicate` where it stands there already.
fn name_port(alloc: Global, walk: &mut Walk<'_>, port: &Port) -> Result<(), ElabFault>
    ensures { (design : List whole.Module) (top : List ℕ) (done : Visits) (here : Here) (at : At) (m : whole.Module) (rest : List tree.Port) (under : List Task)
        → IsOpening design top done here at at m (some_ports here m (port.now ∷ rest) ∷ under) under walk.old
        → HasNamed design top done here at m port.now rest under walk.new result }
{
    let is_bad = stands_twice(alloc, &mut walk.here.earlier, port.name.as_slice())?;
    if is_bad {
        return Err(ElabFault::Duplicate(port.place));
    }
    Ok(())
}

/// Goes past a port that is named.
fn past_named<'a>(
    alloc: Global,
    walk: &mut Walk<'a>,
    of: &'a Module,
    port: &'a Port,
    rest: &'a [Port],
) -> Result<(), ElabFault>
    ensures { (design : List whole.Module) (top : List ℕ) (done : Visits) (here : Here) (at : At) (under : List Task)
        → IsNamed design top done here at of.now port.now rest.now under walk.old → HasStepped design top walk.new result }
{
    match judge_port(alloc, walk.names.as_slice(), port) {
        Ok(()) => {
            past_port(walk, of, rest)?;
            Ok(())
        }
        Err(fault) => Err(fault),
    }
}

/// Goes on from the first of the ports that are left.
fn step_port<'a>(
    alloc: Global,
    walk: &mut Walk<'a>,
    of: &'a Module,
    port: &'a Port,
    rest: &'a [Port],
) -> Result<(), ElabFault>
    ensures { (design : List whole.Module) (top : List ℕ) (done : Visits) (here : Here) (at : At) (under : List Task)
        → IsOpening design top done here at at of.now (some_ports here of.now (port.now ∷ rest.now) ∷ under) under walk.old
        → HasStepped design top walk.new result }
{
    match name_port(alloc, walk, port) {
        Ok(()) => past_named(alloc, walk, of, port, rest),
        Err(fault) => Err(fault),
    }
}

/// Goes on at the ports of a module that are left: at the first of them, or to the items where there is none.
pub fn step_ports<'a>(
    alloc: Global,
    walk: &mut Walk<'a>,
    of: &'a Module,
    ports: &'a [Port],
) -> Result<(), ElabFault>
    ensures { (design : List whole.Module) (top : List ℕ) (done : Visits) (here : Here) (at : At) (tasks : List Task)
        → IsStanding design top done here at tasks (record walk.old { left = left.Ports of.entry ports.entry ∷ walk.old.left })
        → HasStepped design top walk.new result }
{
    match ports.split_first() {
        Some(parts) => step_port(alloc, walk, of, parts.0, parts.1),
        None => {
            to_body(alloc, walk, of)?;
            Ok(())
        }
    }
}
