ghost use Rattle.std.specs.Prelude.{ℕ, List, ◌∷◌};
ghost use Rattle.vlog_tree.specs.declared.module.SourceFile.{SourceFile};
ghost use Rattle.scope_meaning.specs.Scope.{Here, At};
ghost use Rattle.scope_meaning.specs.Visits.{Visits};
ghost use Rattle.scope_meaning.specs.ScopeTrees.{modules};
ghost use Rattle.elab_modules.specs.Modules.{AreModules};
ghost use Rattle.walk_laws.specs.Rest.{Task};
ghost use Rattle.walk_state.specs.Standing.{IsStanding, IsOnWay};
ghost use Rattle.walk_steps.specs.Steps.{HasStepped};
ghost use Rattle.elab_scope.specs.Walked.{HasWalked};

use cov_types::Rows;
use elab_modules::Modules;
use elab_types::ElabFault;
use std::alloc::Global;
use walk_ends::{end_block, end_module};
use walk_headers::{step_header, step_ports};
use walk_instances::step_instances;
use walk_kinds::step_items;
use walk_loops::{step_on, step_turn};
use walk_state::{Left, Record, Walk};

/// Does what is left to do first.
fn step<'a>(
    alloc: Global,
    table: &Modules<'a>,
    walk: &mut Walk<'a>,
    left: Left<'a>,
) -> Result<(), ElabFault>
    ensures { (files : List SourceFile) (top : List ℕ) (done : Visits) (here : Here) (at : At) (tasks : List Task) → AreModules files table.now
        → IsStanding (modules files) top done here at tasks (record walk.old { left = left.entry ∷ walk.old.left })
        → HasStepped (modules files) top walk.new result }
{
    match left {
        Left::Header { of, items } => step_header(alloc, walk, of, items),
        Left::Ports { of, ports } => step_ports(alloc, walk, of, ports),
        Left::Items { items } => step_items(alloc, table, walk, items),
        Left::Turn { passes, value } => step_turn(alloc, walk, passes, value),
        Left::Step { passes, value } => step_on(alloc, walk, passes, value),
        Left::Instances { by, made } => step_instances(alloc, table, walk, by, made),
        Left::EndOfBlock { around } => {
            end_block(walk, around);
            Ok(())
        }
        Left::EndOfModule {
            around,
            names,
            number,
        } => {
            end_module(walk, around, names, number);
            Ok(())
        }
    }
}

/// What a walk through the design records, from where it stands to its end. A walk of 2^64 steps is past all memory.
pub(crate) fn walked<'a>(
    alloc: Global,
    table: &Modules<'a>,
    walk: Walk<'a>,
) -> Result<Rows<Record>, ElabFault>
    ensures { (files : List SourceFile) (top : List ℕ) → AreModules files table.now → IsOnWay (modules files) top walk.entry
        → HasWalked (modules files) top result }
{
    let mut walk = walk;
    'steps: for _ in 0..u64::MAX {
        match walk.left.pop() {
            Some(left) => match step(alloc, table, &mut walk, left) {
                Ok(()) => {}
                Err(fault) => return Err(fault),
            },
            None => return Ok(walk.records),
        }
    }
    Err(ElabFault::NoMemory)
}
