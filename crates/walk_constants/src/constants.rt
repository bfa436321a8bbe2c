ghost use Rattle.std.specs.Prelude.{◌≡◌, ℕ, List};
ghost use Rattle.vlog_tree.specs.declared.module.Module.{Module};
ghost use Rattle.vlog_tree.specs.declared.item.Item as tree;
ghost use Rattle.vlog_tree.specs.declared.item.ItemKind.TheOpen as i;
ghost use Rattle.vlog_tree.specs.Trees.{layer};
ghost use Rattle.scope_meaning.specs.Scope.{Here, At};
ghost use Rattle.scope_meaning.specs.Visits.{Visits};
ghost use Rattle.walk_laws.specs.Rest.{Task};
ghost use Rattle.walk_steps.specs.Steps.{IsBegun, HasStepped};

use elab_parameters::judge_parameters;
use elab_types::ElabFault;
use std::alloc::Global;
use vlog_tree::{Item, ParamForm, ParamName};
use walk_moves::past_parameters;
use walk_state::Walk;

/// Goes past a declaration of parameters of this number; their constants are known from then on.
pub fn past_constants(
    alloc: Global,
    walk: &mut Walk<'_>,
    item: &Item,
    number: u32,
    local: bool,
    form: &ParamForm,
    declared: &[ParamName],
) -> Result<(), ElabFault>
    ensures { (design : List Module) (top : List ℕ) (done : Visits) (here : Here) (at : At) (rest : List tree.Item) (under : List Task)
        → IsBegun design top done here at item.now rest under walk.old → number ≡ at.item → layer item.now ≡ i.Parameter local form.now declared.now
        → HasStepped design top walk.new result }
{
    match judge_parameters(
        alloc,
        &mut walk.names,
        &walk.here.given,
        item.place,
        local,
        form,
        declared,
    ) {
        Ok(constants) => {
            past_parameters(walk, number, constants)?;
            Ok(())
        }
        Err(fault) => Err(fault),
    }
}
