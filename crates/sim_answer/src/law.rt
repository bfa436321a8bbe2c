//! Laws of the definitions.

ghost use Rattle.sim_answer.specs.Laws.{HasAnAnswer, OneSim};
ghost use Rattle.sim_answer.specs.Underway.{CyclesGoOn, FlagsEnd, RowsEnd, RunsGoOn, StartsGoOn};

use design_laws::{runs_once, settles_once};

/// A run is cut into its start and its cycles, and from each of them goes on to an end for all rows that may come.
pub fn runs_are_cut()
    ensures starts { StartsGoOn }
    ensures cycles { CyclesGoOn }
    ensures flags { FlagsEnd }
    ensures rows { RowsEnd }
    ensures go { RunsGoOn }
{
    runs_once();
    settles_once();
}

/// A `sim` has one answer at most, where texts of designs are told apart and a design has one run.
pub fn sim_has_one_answer()
    ensures { OneSim }
{}

/// A `sim` has an answer, where each text is a design's or has a fault, and a design has a run.
pub fn sim_has_an_answer()
    ensures { HasAnAnswer }
{}
