ghost use Rattle.std.specs.Prelude.{◌≡◌, ℕ, true, Bool, List};
ghost use Rattle.vlog_tree.specs.declared.module.Module.{Module};
ghost use Rattle.vlog_tree.specs.declared.item.Item as tree;
ghost use Rattle.vlog_tree.specs.declared.item.ItemKind.TheOpen as i;
ghost use Rattle.vlog_tree.specs.declared.item.WireName.{WireName};
ghost use Rattle.vlog_tree.specs.Trees.{layer};
ghost use Rattle.scope_meaning.specs.Scope.{Here, At};
ghost use Rattle.scope_meaning.specs.Visits.{Visits};
ghost use Rattle.elab_places.specs.Places.{has_nothing};
ghost use Rattle.walk_laws.specs.Rest.{Task};
ghost use Rattle.walk_steps.specs.Steps.{IsBegun, HasStepped};

use elab_places::{judge_reg, judge_wire};
use elab_types::ElabFault;
use std::alloc::Global;
use vlog_tree::{Item, RangeExpr, RegName};
use walk_moves::past_plain;
use walk_state::Walk;

/// Goes past an item of this number in which nothing can be refused but its names.
pub fn past_quiet(walk: &mut Walk<'_>, item: &Item, number: u32) -> Result<(), ElabFault>
    ensures { (design : List Module) (top : List ℕ) (done : Visits) (here : Here) (at : At) (rest : List tree.Item) (under : List Task)
        → IsBegun design top done here at item.now rest under walk.old → number ≡ at.item → has_nothing (layer item.now) ≡ true
        → HasStepped design top walk.new result }
{
    past_plain(walk, number)?;
    Ok(())
}

/// Goes past a declaration of wires of this number, which have this range.
pub fn past_wires(
    alloc: Global,
    walk: &mut Walk<'_>,
    item: &Item,
    number: u32,
    range: &Option<RangeExpr>,
) -> Result<(), ElabFault>
    ensures { (design : List Module) (top : List ℕ) (done : Visits) (here : Here) (at : At) (rest : List tree.Item) (under : List Task)
        (signed : Bool) (wires : List WireName)
        → IsBegun design top done here at item.now rest under walk.old → number ≡ at.item → layer item.now ≡ i.Wire signed range.now wires
        → HasStepped design top walk.new result }
{
    match judge_wire(alloc, walk.names.as_slice(), item.place, range) {
        Ok(()) => {
            past_plain(walk, number)?;
            Ok(())
        }
        Err(fault) => Err(fault),
    }
}

/// Goes past a declaration of regs of this number, which have this range.
pub fn past_regs(
    alloc: Global,
    walk: &mut Walk<'_>,
    item: &Item,
    number: u32,
    range: &Option<RangeExpr>,
    regs: &[RegName],
) -> Result<(), ElabFault>
    ensures { (design : List Module) (top : List ℕ) (done : Visits) (here : Here) (at : At) (rest : List tree.Item) (under : List Task)
        (signed : Bool)
        → IsBegun design top done here at item.now rest under walk.old → number ≡ at.item → layer item.now ≡ i.Reg signed range.now regs.now
        → HasStepped design top walk.new result }
{
    match judge_reg(alloc, walk.names.as_slice(), item.place, range, regs) {
        Ok(()) => {
            past_plain(walk, number)?;
            Ok(())
        }
        Err(fault) => Err(fault),
    }
}
