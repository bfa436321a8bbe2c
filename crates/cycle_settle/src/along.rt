ghost use Rattle.std.specs.Prelude.{◌≡◌, ℕ, ◌+◌, ◌<◌, ◌≤◌, ◌⊎◌, false, length};
ghost use Rattle.design_meaning.specs.FlowFaults.{Flows};
ghost use Rattle.design_meaning.specs.Orders.{IsOrder};
ghost use Rattle.design_meaning.specs.SettledLaws.{after_all};
ghost use Rattle.design_meaning.specs.States.{IsStateOf};
ghost use Rattle.design_meaning.specs.Valid.{IsValidDesign};
ghost use Rattle.flat_design.specs.Effects.{room_of_all};
ghost use Rattle.flow_order.specs.Orders.{AreReadsOf};
ghost use Rattle.place_marks.specs.Marked.{is_marked};
ghost use Rattle.cycle_wakes.specs.Changes.{HasRoom, HasRoomFor, IsQuiet};
ghost use Rattle.cycle_wakes.specs.Wakes.{AreWakesOf};
ghost use Rattle.cycle_settle.specs.Settling.{AreRaised, Follows, HasNoted, HasRooms, IsRan, IsRun, IsSkipped, TicksActive};

use cycle_parts::Raised;
use cycle_wakes::{Changes, Wakes, note_sources, note_targets};
use flat_design::{Design, Effects, State, Steps, run_process};
use flow_order::{Order, active};
use std::sync::ledger::Ledger;

/// Runs a process, and keeps the counters that it raises.
fn run_kept<L: Ledger>(
    design: &Design,
    p: u32,
    now: &mut State,
    effects: &mut Effects,
    kept: &mut [Raised],
    steps: &mut Steps<L>,
)
    requires valid { IsValidDesign design.now }
    requires of_design { IsStateOf design.now now.old }
    requires process { p < length design.now.processes }
    requires room { effects.old.room ≡ room_of_all design.now }
    requires rooms { HasRooms design.now kept.old }
    ensures run { IsRun design.now p now.old now.new kept.old kept.new }
    ensures room { effects.new.room ≡ effects.old.room }
    ensures ticks { steps.new ≡ steps.old + 1 }
{
    effects.clear();
    run_process(design, p, now, effects, steps);
    kept[p as usize].keep(effects.raised());
}

/// The place to look at next, from one on: that one where all are to be run, else the first that is marked.
fn next_of(all: bool, changes: &Changes, from: usize, end: usize) -> usize
    requires { from ≤ end }
    ensures from { from ≤ result }
    ensures end { result ≤ end }
    ensures between { (k : ℕ) → from ≤ k → k < result → (all ≡ false) × (is_marked changes.now.places k ≡ false) }
{
    if all {
        return from;
    }
    changes.next_place(from, end)
}

/// Runs a process of the order, if all are to be run or a bit that it reads differs from the last settled state, and notes what
/// it writes.
fn settle_one<L: Ledger>(
    design: &Design,
    order: &Order,
    wakes: &Wakes,
    p: u32,
    all: bool,
    before: &State,
    now: &mut State,
    effects: &mut Effects,
    kept: &mut [Raised],
    changes: &mut Changes,
    steps: &mut Steps<L>,
)
    requires valid { IsValidDesign design.now }
    requires reads { AreReadsOf design.now order.now.reads }
    requires wakes { AreWakesOf design.now order.now.processes wakes.now }
    requires before { IsStateOf design.now before.now }
    requires of_design { IsStateOf design.now now.old }
    requires process { p < length design.now.processes }
    requires room { effects.old.room ≡ room_of_all design.now }
    requires rooms { HasRooms design.now kept.old }
    requires changes { HasRoomFor wakes.now changes.old }
    ensures one { (IsRan all design.now order.now p before.now now.old now.new kept.old kept.new steps.old steps.new × HasNoted wakes.now p changes.old
        changes.new)
        ⊎ (IsSkipped all order.now p before.now now.old now.new kept.old kept.new steps.old steps.new × (changes.new ≡ changes.old)) }
    ensures room { effects.new.room ≡ effects.old.room }
{
    if !all && !active(order, p, now, before) {
        return;
    }
    run_kept(design, p, now, effects, kept, steps);
    note_targets(wakes, p, changes);
}

/// Settles a state that agrees with registers and inputs: runs the processes in the order of `order`, all of them in the first
/// cycle, then those alone that read a bit that differs from `before`, the last settled state. Only processes that read a
/// variable that may have changed are looked at. Of each process the counters are kept that its last run raised, and the
/// variables that differ from `before` are left marked. It takes no memory.
pub fn settle<L: Ledger>(
    design: &Design,
    order: &Order,
    wakes: &Wakes,
    all: bool,
    before: &State,
    now: &mut State,
    effects: &mut Effects,
    kept: &mut [Raised],
    changes: &mut Changes,
    steps: &mut Steps<L>,
)
    requires valid { IsValidDesign design.now }
    requires flows { Flows design.now }
    requires order { IsOrder design.now order.now.processes }
    requires reads { AreReadsOf design.now order.now.reads }
    requires wakes { AreWakesOf design.now order.now.processes wakes.now }
    requires before { IsStateOf design.now before.now }
    requires now { IsStateOf design.now now.old }
    requires follows { all ≡ false → Follows design.now before.now now.old kept.old }
    requires room { effects.old.room ≡ room_of_all design.now }
    requires rooms { HasRooms design.now kept.old }
    requires changes { HasRoom (length order.now.processes) (length design.now.vars) changes.old }
    ensures settled { now.new ≡ after_all design.now order.now.processes now.old }
    ensures raised { AreRaised design.now now.new kept.new }
    ensures rooms { HasRooms design.now kept.new }
    ensures room { effects.new.room ≡ effects.old.room }
    ensures changed { all ≡ false → (v : ℕ) → v < length design.now.vars → is_marked changes.new.vars v ≡ false → IsQuiet now.new before.now v }
    ensures changes { HasRoom (length order.now.processes) (length design.now.vars) changes.new }
    ensures ticks { TicksActive all design.now before.now now.new steps.old steps.new }
{
    let places = order.processes();
    changes.clear();
    note_sources(design, wakes, now, before, changes);
    let mut at = next_of(all, changes, 0, places.len());
    'process: while at < places.len() {
        let p = places[at];
        settle_one(
            design, order, wakes, p, all, before, now, effects, kept, changes, steps,
        );
        at = next_of(all, changes, at + 1, places.len());
    }
}
