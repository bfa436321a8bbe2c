ghost use Rattle.std.specs.Prelude.{◌≡◌, ℕ, ◌<◌, length, slice_index_or, IfOk};
ghost use Rattle.design_meaning.specs.Valid.{IsValidDesign};
ghost use Rattle.flow_spans.specs.Reads.{AreKnown};
ghost use Rattle.flow_uses.specs.Uses.{AreUsesOf, no_uses};
ghost use Rattle.flow_uses.specs.Gathers.{AreStepsIn, IsGathered};

use crate::lists::Lists;
use crate::steps::gather_steps;
use crate::uses::Uses;
use cov_types::{NoMemory, Rows, Var};
use design_state::State;
use design_tree::{Design, Step};
use std::alloc::Global;

/// What steps read and write.
fn uses_of(alloc: Global, steps: &[Step], vars: &[Var], state: &State) -> Result<Uses, NoMemory>
    requires known { AreKnown vars.now state.now }
    requires steps { AreStepsIn state.now steps.now }
    ensures { IfOk result (IsGathered vars.now steps.now) }
{
    let mut lists = Lists {
        reads: Vec::new(alloc),
        sets: Vec::new(alloc),
        defers: Vec::new(alloc),
    };
    gather_steps(steps, vars, state, &mut lists)?;
    let Lists {
        reads,
        sets,
        defers,
    } = lists;
    Ok(Uses {
        reads: Rows::from_vec(reads),
        sets: Rows::from_vec(sets),
        defers: Rows::from_vec(defers),
    })
}

/// What each process of a design reads and writes.
pub fn all_uses(alloc: Global, design: &Design) -> Result<Vec<Uses>, NoMemory>
    requires valid { IsValidDesign design.now }
    ensures many { IfOk result (λ us. length us.items ≡ length design.now.processes) }
    ensures uses { IfOk result (λ us. (p : ℕ) → p < length design.now.processes → AreUsesOf design.now p (slice_index_or us.items p no_uses)) }
{
    let state = State::new(alloc, design)?;
    let mut all = Vec::new(alloc);
    for process in design.processes.as_slice() {
        let uses = uses_of(
            alloc,
            process.body.as_slice(),
            design.vars.as_slice(),
            &state,
        )?;
        all.push(uses)?;
    }
    Ok(all)
}
