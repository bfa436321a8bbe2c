//! Laws of coverage points, counters and built designs, for the proofs of other crates: a call of one of these functions does nothing, and its
//! contract is the law.
#![tactic(auto)]

ghost use Rattle.build_meaning.specs.FilesLaw.{FilesRunAsTyped, FilesRunOnce};
ghost use Rattle.build_meaning.specs.SimLaw.{BuiltRunsAsSource};
ghost use Rattle.counted_circuit.specs.Balance.{ForksBalance};
ghost use Rattle.counted_circuit.specs.CountedLaws.{CountedRuns, CountsKeepFlow, PlainCountsArePoints};
ghost use Rattle.counted_circuit.specs.DerivedLists.{ListsGive};
ghost use Rattle.counted_circuit.specs.TellsLaw.{CountsWhatIsTold};
ghost use Rattle.point_meaning.specs.FromWalk.{RowsAreOfTheWalk};

/// Steps with counts do what the steps without do, and raise the counters that the entered arms carry; so does a design in
/// each run, and it flows exactly where the design does. With one counter a point, each count is the point's occurrences.
pub fn counts()
    ensures steps { CountsWhatIsTold }
    ensures runs { CountedRuns }
    ensures flow { CountsKeepFlow }
    ensures points { PlainCountsArePoints }
{}

/// In each run the two arms of an `if` are entered together as often as the arm around it, so derived counts are exact.
pub fn derived_counts()
    ensures balance { ForksBalance }
    ensures lists { ListsGive }
{}

/// What a scope tree and a flat source say of points is what the walk through their files says.
pub fn rows_of_the_walk()
    ensures { RowsAreOfTheWalk }
{}

/// The typed form of the flat source of some files has the runs of the files' circuit; and where it has one run, the circuit
/// has exactly one, which is that.
pub fn files_run_as_typed()
    ensures keeps { FilesRunAsTyped }
    ensures once { FilesRunOnce }
{}

/// A counted run of a built design prints what the source's one run prints, ends as it does, and has its data file.
pub fn built_runs_as_source()
    ensures { BuiltRunsAsSource }
{}
