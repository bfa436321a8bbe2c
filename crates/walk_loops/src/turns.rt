ghost use Rattle.std.specs.Prelude.{◌≡◌, ℕ, true, List, [], ◌∷◌, Some, None, IfOk};
ghost use Rattle.vlog_tree.specs.declared.module.Module.{Module};
ghost use Rattle.vlog_tree.specs.declared.item.BlockPlaces.{BlockPlaces};
ghost use Rattle.vlog_tree.specs.declared.item.NamePlace.{NamePlace};
ghost use Rattle.vlog_tree.specs.declared.item.Item as tree;
ghost use Rattle.vlog_tree.specs.declared.item.ItemKind.TheOpen as i;
ghost use Rattle.vlog_tree.specs.Trees.{layer};
ghost use Rattle.scope_meaning.specs.Scope.{Here, At};
ghost use Rattle.scope_meaning.specs.Heads.{GenLoop, names_in_pass, test_of};
ghost use Rattle.scope_meaning.specs.ScopeRules.{refusal};
ghost use Rattle.scope_meaning.specs.Visits.{Visits, past};
ghost use Rattle.walk_laws.specs.Rest.{Task, a_turn_of};
ghost use Rattle.walk_laws.proofs.Steps.{test_seen};
ghost use Rattle.walk_state.specs.declared.left.Left.TheVariants as left;
ghost use Rattle.walk_state.specs.Standing.{IsStanding, IsMidway, IsLoop};
ghost use Rattle.walk_steps.specs.Steps.{IsBegun, HasStepped};

use crate::enter::enter_pass;
use cov_types::{LimitName, NoMemory};
use elab_heads::LoopHead;
use elab_places::{judge_loop, judge_step, judge_test};
use elab_types::ElabFault;
use std::alloc::Global;
use vlog_tree::Item;
use walk_moves::{to_loop, to_turn};
use walk_state::{LoopPasses, Walk};

/// As many scopes as a design may have.
const MOST_SCOPES: u32 = 65_536;

fn boxed<'a>(alloc: Global, passes: LoopPasses<'a>) -> Result<Box<LoopPasses<'a>>, NoMemory>
    ensures { IfOk result (λ kept. kept.value ≡ passes.entry) }
{
    match Box::new(alloc, passes) {
        Ok(kept) => Ok(kept),
        Err(_) => Err(NoMemory),
    }
}

/// Goes from a generate loop of this number to its first turn.
pub fn into_loop<'a>(
    alloc: Global,
    walk: &mut Walk<'a>,
    item: &Item,
    number: u32,
    head: LoopHead<'a>,
    block: &'a [u8],
    body: &'a [Item],
) -> Result<(), ElabFault>
    ensures { (design : List Module) (top : List ℕ) (done : Visits) (here : Here) (at : At) (rest : List tree.Item) (under : List Task)
        (label : NamePlace) (places : BlockPlaces)
        → IsBegun design top done here at item.now rest under walk.old → number ≡ at.item → label.name ≡ block.now
        → layer item.now ≡ i.Loop head.entry.name.now head.entry.from.now head.entry.test.now head.entry.step_name.now head.entry.step.now label places body.now
        → HasStepped design top walk.new result }
{
    match judge_loop(alloc, walk.names.as_slice(), item.place, head) {
        Ok(value) => {
            let passes = boxed(
                alloc,
                LoopPasses {
                    place: item.place,
                    item: number,
                    name: head.name,
                    test: head.test,
                    step: head.step,
                    block,
                    body,
                },
            )?;
            to_loop(walk, passes, value)?;
            Ok(())
        }
        Err(fault) => Err(fault),
    }
}

/// Goes into the block of a pass, where there is room for one more scope.
fn into_pass<'a>(
    alloc: Global,
    walk: &mut Walk<'a>,
    passes: Box<LoopPasses<'a>>,
    value: i32,
) -> Result<(), ElabFault>
    ensures { (design : List Module) (top : List ℕ) (done : Visits) (here : Here) (place : At) (a : tree.Item) (l : GenLoop) (under : List Task)
        → IsMidway design top done here (past place a []) (past place a []) (a_turn_of here place a l value ∷ under) under walk.old
        → IsLoop place a l passes.entry.value → refusal design (test_seen here place a l value) ≡ None
        → test_of (names_in_pass here place l.name value) l.test ≡ Some true
        → HasStepped design top walk.new result }
{
    if walk.next < MOST_SCOPES {
        enter_pass(alloc, walk, passes, value)?;
        return Ok(());
    }
    Err(ElabFault::Limit(LimitName::Scopes))
}

/// Goes on from a turn of a generate loop, its genvar having a value: into the block of the pass where the test holds, else
/// behind the loop.
pub fn step_turn<'a>(
    alloc: Global,
    walk: &mut Walk<'a>,
    passes: Box<LoopPasses<'a>>,
    value: i32,
) -> Result<(), ElabFault>
    ensures { (design : List Module) (top : List ℕ) (done : Visits) (here : Here) (at : At) (tasks : List Task)
        → IsStanding design top done here at tasks (record walk.old { left = left.Turn passes.entry value ∷ walk.old.left })
        → HasStepped design top walk.new result }
{
    match judge_test(
        alloc,
        walk.names.as_slice(),
        passes.place,
        passes.name,
        value,
        passes.test,
    ) {
        Ok(holds) => {
            if holds {
                return into_pass(alloc, walk, passes, value);
            }
            Ok(())
        }
        Err(fault) => Err(fault),
    }
}

/// Goes on from behind the block of a pass: to the next turn.
pub fn step_on<'a>(
    alloc: Global,
    walk: &mut Walk<'a>,
    passes: Box<LoopPasses<'a>>,
    value: i32,
) -> Result<(), ElabFault>
    ensures { (design : List Module) (top : List ℕ) (done : Visits) (here : Here) (at : At) (tasks : List Task)
        → IsStanding design top done here at tasks (record walk.old { left = left.Step passes.entry value ∷ walk.old.left })
        → HasStepped design top walk.new result }
{
    match judge_step(
        alloc,
        walk.names.as_slice(),
        passes.place,
        passes.name,
        value,
        passes.step,
    ) {
        Ok(next) => {
            to_turn(walk, passes, next)?;
            Ok(())
        }
        Err(fault) => Err(fault),
    }
}
