ghost use Rattle.std.specs.Prelude.{◌≡◌, ◌+◌, ◌<◌, length};
ghost use Rattle.design_meaning.specs.Processes.{process_of};
ghost use Rattle.design_meaning.specs.States.{IsStateOf};
ghost use Rattle.design_meaning.specs.Steps.{run_of};
ghost use Rattle.design_meaning.specs.Valid.{IsValidDesign};
ghost use Rattle.flat_design.specs.Effects.{added, room_of, HasRoom};

use crate::effects::Effects;
use crate::run::run_steps;
use design_state::State;
use design_tree::Design;
use std::sync::ledger::Ledger;
use step_count::Steps;

/// Runs process `p` from a state, and ticks once. What it leaves beside the state is added to the effects, which have room for it.
/// It takes no memory.
pub fn run_process<L: Ledger>(
    design: &Design,
    p: u32,
    state: &mut State,
    effects: &mut Effects,
    steps: &mut Steps<L>,
)
    requires valid { IsValidDesign design.now }
    requires of_design { IsStateOf design.now state.old }
    requires process { p < length design.now.processes }
    requires room { HasRoom effects.old (room_of design.now (process_of design.now p)) }
    ensures state { state.new ≡ (run_of (process_of design.now p) state.old).state }
    ensures effects { effects.new ≡ added effects.old (run_of (process_of design.now p) state.old) }
    ensures ticks { steps.new ≡ steps.old + 1 }
{
    steps.tick();
    let process = &design.processes.as_slice()[p as usize];
    run_steps(process.body.as_slice(), state, effects);
}
