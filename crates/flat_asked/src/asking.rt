ghost use Rattle.std.specs.Prelude.{◌≡◌, ◌&&◌, not, ℕ, List};
ghost use Rattle.scope_meaning.specs.Scope.{Frame};
ghost use Rattle.scope_meaning.specs.Visits.{Visits};
ghost use Rattle.flat_scopes.specs.Frames.{AreFramesAt};
ghost use Rattle.flat_names.specs.Loops.{loop_names};
ghost use Rattle.flat_clocks.specs.Handings.{AreClocks};
ghost use Rattle.flat_loop_variables.specs.Turned.{AreLoopVariables};
ghost use Rattle.flat_asked.specs.Asked as spec;

use crate::meant::{has_value, in_table, of_assignments, of_processes};
use flat_names::InsideNames;
use flat_scopes::{PlaceInScope, SeenScopes};
use flat_uses::NameTest;
use scope_table::ScopeTable;

/// What is asked of a name that stands at a place.
#[derive(Clone, Copy, Debug)]
pub enum Asked {
    /// Whether it means neither a constant nor a variable.
    NoValue,
    /// Whether it means a clock signal.
    ClockSignal,
    /// Whether it means a loop variable.
    LoopVariable,
    /// Whether it means a loop variable for which no loop around has a value.
    OutsideItsLoops,
    /// Whether a process may not write what it means.
    NotOfProcesses,
    /// Whether an assignment or a connection may not write what it means.
    NotOfAssignments,
}

/// A question about names at a place, in the passes of the loops there.
///
/// `clocks` and `loops` have the clock signals and the loop variables of the design.
#[derive(Clone, Copy)]
pub struct Asking<'a> {
    scopes: &'a SeenScopes,
    at: PlaceInScope,
    around: InsideNames<'a>,
    clocks: &'a ScopeTable<()>,
    loops: &'a ScopeTable<()>,
    asked: Asked,
}

fn both(one: bool, other: bool) -> bool
    ensures { result ≡ (one && other) }
{
    one && other
}

impl<'a> Asking<'a> {
    /// What is asked at a place, where `around` has the names in the passes there.
    pub fn new(
        scopes: &'a SeenScopes,
        at: PlaceInScope,
        around: InsideNames<'a>,
        clocks: &'a ScopeTable<()>,
        loops: &'a ScopeTable<()>,
        asked: Asked,
    ) -> Asking<'a>
        ensures { (vs : Visits) (clock : List ℕ) (fs : List Frame) → AreFramesAt scopes.now.scopes.items at fs → AreClocks vs clock clocks.now
            → AreLoopVariables vs loops.now → spec.AsksOf vs clock fs (loop_names around.entry.loops.now) asked (spec.answered result) }
    {
        Asking {
            scopes,
            at,
            around,
            clocks,
            loops,
            asked,
        }
    }

    /// Whether it is so of a name.
    fn answer(&self, name: &[u8]) -> bool
        ensures { result ≡ spec.answered self.now name.now }
    {
        let meant = self.scopes.meaning(self.at, name);
        match self.asked {
            Asked::NoValue => !has_value(meant),
            Asked::ClockSignal => in_table(self.clocks, name, meant),
            Asked::LoopVariable => in_table(self.loops, name, meant),
            Asked::OutsideItsLoops => both(
                in_table(self.loops, name, meant),
                !self.around.is_turned(name),
            ),
            Asked::NotOfProcesses => !of_processes(meant),
            Asked::NotOfAssignments => !of_assignments(meant),
        }
    }
}

impl NameTest for Asking<'_> {
    ghost holds = { λ asking name. spec.answered asking name };

    fn holds_of(&self, name: &[u8]) -> bool {
        self.answer(name)
    }
}
