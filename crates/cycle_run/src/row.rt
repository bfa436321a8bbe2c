ghost use Rattle.std.specs.Prelude.{◌≡◌, ℕ, ◌<◌, false, length};
ghost use Rattle.circuit_run.specs.States.{Bit, bit};
ghost use Rattle.cycle_settle.specs.Settling.{AreRaised, Follows, HasRooms, TicksActive};
ghost use Rattle.design_meaning.specs.FlowFaults.{Flows};
ghost use Rattle.design_meaning.specs.Orders.{IsOrder};
ghost use Rattle.design_meaning.specs.Settled.{IsSettled, IsUndrivenBit};
ghost use Rattle.design_meaning.specs.SettledLaws.{IsRow};
ghost use Rattle.design_meaning.specs.States.{IsStateOf};
ghost use Rattle.design_meaning.specs.Valid.{IsValidDesign};
ghost use Rattle.flat_design.specs.Effects.{room_of_all};
ghost use Rattle.flow_order.specs.Orders.{AreReadsOf};
ghost use Rattle.place_marks.specs.Marked.{is_marked};
ghost use Rattle.cycle_wakes.specs.Changes.{HasRoom, IsQuiet};
ghost use Rattle.cycle_wakes.specs.Wakes.{AreWakesOf};

use cycle_parts::{Raised, take_inputs};
use cycle_settle::settle;
use cycle_wakes::{Changes, Wakes};
use flat_design::{Design, Effects, State, Steps};
use flow_order::Order;
use std::sync::ledger::Ledger;

/// Settles the registers of a state with the values of a row. From the second cycle on the variables that differ from the last settled
/// state are left marked.
pub fn settle_row<L: Ledger>(
    design: &Design,
    order: &Order,
    wakes: &Wakes,
    first: bool,
    values: &[u128],
    settled: &State,
    state: &mut State,
    effects: &mut Effects,
    kept: &mut [Raised],
    changes: &mut Changes,
    steps: &mut Steps<L>,
)
    requires valid { IsValidDesign design.now }
    requires flows { Flows design.now }
    requires order { IsOrder design.now order.now.processes }
    requires reads { AreReadsOf design.now order.now.reads }
    requires wakes { AreWakesOf design.now order.now.processes wakes.now }
    requires row { IsRow design.now values.now }
    requires settled { IsStateOf design.now settled.now }
    requires state { IsStateOf design.now state.old }
    requires undriven { (b : Bit) → IsUndrivenBit design.now b → bit state.old b ≡ 0 }
    requires follows { first ≡ false → Follows design.now settled.now state.old kept.old }
    requires room { effects.old.room ≡ room_of_all design.now }
    requires rooms { HasRooms design.now kept.old }
    requires changes { HasRoom (length order.now.processes) (length design.now.vars) changes.old }
    ensures settled { IsSettled design.now state.old values.now state.new }
    ensures raised { AreRaised design.now state.new kept.new }
    ensures rooms { HasRooms design.now kept.new }
    ensures room { effects.new.room ≡ effects.old.room }
    ensures changed { first ≡ false → (v : ℕ) → v < length design.now.vars → is_marked changes.new.vars v ≡ false → IsQuiet state.new settled.now v }
    ensures changes { HasRoom (length order.now.processes) (length design.now.vars) changes.new }
    ensures ticks { TicksActive first design.now settled.now state.new steps.old steps.new }
{
    take_inputs(design, values, state);
    settle(
        design, order, wakes, first, settled, state, effects, kept, changes, steps,
    );
}
