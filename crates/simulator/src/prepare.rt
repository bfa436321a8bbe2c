ghost use Rattle.std.specs.Prelude.{◌≡◌, ◌≤◌, ◌<◌, ◌+◌, ◌*◌, ◌^◌, false, IfOk, length};
ghost use Rattle.cycle_settle.specs.Settling.{HasRooms};
ghost use Rattle.design_meaning.specs.States.{IsStateOf};
ghost use Rattle.design_meaning.specs.Valid.{IsValid, IsValidDesign};
ghost use Rattle.flat_design.specs.Effects.{room_of_all};
ghost use Rattle.simulator.specs.Machines.{CanRun, IsSound};

use crate::machine::Machine;
use cov_types::NoMemory;
use cycle_parts::{OUTPUT_COLUMNS, Raised, first_entries};
use cycle_phases::mark_others;
use cycle_run::{CycleEnd, Line};
use cycle_start::start_state;
use cycle_wakes::{Changes, Wakes};
use flat_design::{Design, Effects, Instrumented, State, counter_room};
use flow_order::Order;
use std::alloc::Global;

/// Room for the counters that each process raises in one run.
fn raised_rooms(alloc: Global, design: &Design, state: &State) -> Result<Vec<Raised>, NoMemory>
    requires valid { IsValidDesign design.now }
    requires of_design { IsStateOf design.now state.now }
    ensures { IfOk result (λ kept. HasRooms design.now kept.items) }
{
    let mut kept = Vec::new(alloc);
    for p in 0..design.processes.as_slice().len() {
        let room = counter_room(design, p as u32, state)?;
        kept.push(Raised::with_room(alloc, room)?)?;
    }
    Ok(kept)
}

/// Room for the line of outputs and the text of a cycle. What doesn't fit is more than any memory has.
fn line_room(outputs: usize, text: usize) -> Result<usize, NoMemory>
    ensures { IfOk result (λ n. n ≡ 33 * outputs + 1 + text) }
{
    let columns = match outputs.checked_mul(OUTPUT_COLUMNS) {
        Some(columns) => columns,
        None => return Err(NoMemory),
    };
    let line = match columns.checked_add(1) {
        Some(line) => line,
        None => return Err(NoMemory),
    };
    match line.checked_add(text) {
        Some(room) => Ok(room),
        None => Err(NoMemory),
    }
}

impl<'a> Machine<'a> {
    /// A machine for a design that flows, with an order of it as the flow check gives it. It takes all memory that the run needs.
    pub fn prepare(
        alloc: Global,
        design: &'a Instrumented,
        order: &'a Order,
    ) -> Result<Machine<'a>, NoMemory>
        requires { CanRun design.now order.now }
        ensures sound { IfOk result (λ m. IsSound m) }
        ensures design { IfOk result (λ m. m.design ≡ design.now) }
        ensures order { IfOk result (λ m. m.order ≡ order.now) }
        ensures first { IfOk result (λ m. m.started ≡ false) }
        ensures cycles { IfOk result (λ m. m.cycles ≡ 0) }
    {
        let state = start_state(alloc, &design.design)?;
        let settled = State::new(alloc, &design.design)?;
        let kept = raised_rooms(alloc, &design.design, &settled)?;
        let places = order.processes();
        let vars = design.design.vars.as_slice();
        let wakes = Wakes::new(alloc, &design.design, places)?;
        let others = mark_others(alloc, &design.design)?;
        let changes = Changes::new(alloc, places.len(), vars.len())?;
        let firsts = first_entries(alloc, design)?;
        let effects = Effects::reserve(alloc, design)?;
        let room = line_room(design.design.outputs.as_slice().len(), effects.byte_room())?;
        let line = Line::with_room(alloc, room)?;
        let counts = vec![in alloc; 0u64; design.counters as usize]?;
        Ok(Machine {
            design,
            order,
            wakes,
            others,
            firsts,
            state,
            settled,
            kept,
            changes,
            effects,
            counts,
            line,
            cycles: 0,
            end: CycleEnd::Goes,
            started: false,
        })
    }
}
