ghost use Rattle.std.specs.Prelude.{◌≡◌, ◌≤◌, ◌<◌, ◌+◌, ◌==◌, ◌^◌, true, false, length};
ghost use Rattle.circuit_run.specs.Kinds.{is_initial, runs_at_edge};
ghost use Rattle.design_meaning.specs.Cycles.{IsCycle, IsStart};
ghost use Rattle.design_meaning.specs.Processes.{processes_that};
ghost use Rattle.design_meaning.specs.SettledLaws.{IsRow};
ghost use Rattle.cycle_run.specs.Ends.{end_seen};
ghost use Rattle.cycle_run.specs.declared.end.CycleEnd.TheVariants as cycle_end;
ghost use Rattle.simulator.specs.Machines.{IsSound, SameRun, between, text_of};
ghost use Rattle.simulator.specs.Frugal.{IsFrugal};

use cycle_parts::{Raised, copy_state};
use cycle_phases::Phase;
use cycle_run::{CycleEnd, Line, close_phase, count_settled, settle_row};
use cycle_wakes::{Changes, Wakes};
use flat_design::{Effects, Instrumented, State, Steps};
use flow_order::Order;
use place_marks::PlaceMarks;
use std::marker::Model;
use std::sync::ledger::Ledger;
use stim_lines::Row;

/// Runs a design cycle by cycle.
///
/// Assignments and combinational processes are run only in cycles in which a bit that they read has changed, and occur in the others
/// all the same. Only `prepare` takes memory.
#[derive(Drop)]
pub struct Machine<'a> {
    pub(crate) design: &'a Instrumented,
    pub(crate) order: &'a Order,
    pub(crate) wakes: Wakes,
    pub(crate) others: PlaceMarks,
    pub(crate) firsts: Vec<usize>,
    pub(crate) state: State,
    pub(crate) settled: State,
    pub(crate) kept: Vec<Raised>,
    pub(crate) changes: Changes,
    pub(crate) effects: Effects,
    pub(crate) counts: Vec<u64>,
    pub(crate) line: Line,
    pub(crate) cycles: u64,
    pub(crate) end: CycleEnd,
    pub(crate) started: bool,
}

impl<'a> Model for Machine<'a> {
    ghost use Rattle.simulator.specs.Machines as seen;
    ghost use Rattle.design_tree.specs.contracts.step.Step as step;
    ghost use Rattle.std.specs.Coded.{codes};

    ghost Value = { seen.Machine };

    ghost coded = { Prim.hlevel (codes, step.the_row.coded) };

    ghost view = { λ m. record {
      design = m.design.now;
      order = m.order.now;
      wakes = m.wakes;
      others = m.others;
      firsts = m.firsts.items;
      state = m.state;
      settled = m.settled;
      kept =
          m.kept.items;
      changes = m.changes;
      effects = m.effects;
      counts = m.counts.items;
      line = m.line;
      cycles = m.cycles;
      end = m.end;
      started =
          m.started;
    } };
}

impl<'a> Machine<'a> {
    /// The start of the run: the initial processes, each once, with at most one tick for each. The first call.
    pub fn start<L: Ledger>(&mut self, steps: &mut Steps<L>) -> CycleEnd
        requires sound { IsSound self.old }
        requires first { self.old.started ≡ false }
        ensures run { IsStart self.old.design (between self.new) (text_of self.new) (end_seen result) }
        ensures sound { IsSound self.new }
        ensures same { SameRun self.old self.new }
        ensures started { self.new.started ≡ true }
        ensures cycles { self.new.cycles ≡ 0 }
        ensures end { self.new.end ≡ result }
        ensures ticks { steps.new ≤ steps.old + length (processes_that is_initial self.old.design.design) }
    {
        self.line.clear();
        let end = close_phase(
            &self.design.design,
            &self.others,
            Phase::Start,
            &mut self.state,
            &mut self.effects,
            &mut self.line,
            self.counts.as_mut_slice(),
            steps,
        );
        self.started = true;
        self.end = end;
        end
    }

    /// One cycle with the values of a row, after a start or a cycle that goes on. It ticks at most once for each clocked process
    /// and cover, and for each active assignment and combinational process.
    pub fn cycle<L: Ledger>(&mut self, row: &Row, steps: &mut Steps<L>) -> CycleEnd
        requires sound { IsSound self.old }
        requires started { self.old.started ≡ true }
        requires goes { self.old.end ≡ cycle_end.Goes }
        requires row { IsRow self.old.design.design row.now.values }
        requires few { self.old.cycles < 2 ^ 32 }
        ensures run { IsCycle self.old.design (between self.old) row.now.values (between self.new) (text_of self.new) (end_seen result) }
        ensures sound { IsSound self.new }
        ensures same { SameRun self.old self.new }
        ensures started { self.new.started ≡ true }
        ensures cycles { self.new.cycles ≡ self.old.cycles + 1 }
        ensures end { self.new.end ≡ result }
        ensures ticks { IsFrugal (self.old.cycles == 0) self.old.design.design self.old.settled self.new.settled steps.old steps.new }
    {
        let first = self.cycles == 0;
        settle_row(
            &self.design.design,
            self.order,
            &self.wakes,
            first,
            row.values.as_slice(),
            &self.settled,
            &mut self.state,
            &mut self.effects,
            self.kept.as_mut_slice(),
            &mut self.changes,
            steps,
        );
        count_settled(
            self.design,
            &self.others,
            first,
            self.firsts.as_slice(),
            self.changes.vars(),
            &self.settled,
            &self.state,
            self.kept.as_slice(),
            self.counts.as_mut_slice(),
        );
        self.line
            .print_outputs(self.design.design.outputs.as_slice(), &self.state);
        copy_state(&self.design.design, &self.state, &mut self.settled);
        let end = close_phase(
            &self.design.design,
            &self.others,
            Phase::Edge,
            &mut self.state,
            &mut self.effects,
            &mut self.line,
            self.counts.as_mut_slice(),
            steps,
        );
        self.cycles += 1;
        self.end = end;
        end
    }

    /// The text of the last call.
    pub fn line(&self) -> &[u8]
        ensures { result.now ≡ text_of self.now }
    {
        self.line.bytes()
    }

    /// What each counter is.
    pub fn counts(&self) -> &[u64]
        ensures { result.now ≡ self.now.counts }
    {
        self.counts.as_slice()
    }

    /// How many cycles were run.
    pub fn cycles(&self) -> u64
        ensures { result ≡ self.now.cycles }
    {
        self.cycles
    }
}
