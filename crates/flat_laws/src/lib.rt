//! Laws of flat sources and of typed forms, for the proofs of other crates: a call of one of these functions does nothing, and its contract is
//! the law.
#![tactic(auto)]

ghost use Rattle.flat_meaning.specs.FlatLaws.{FlatMeansTheSame, FlatDoesTheSame, FlatNamesTheSame};
ghost use Rattle.flat_source_meaning.specs.ArmEvents.{EventsAreOfArms};
ghost use Rattle.flat_source_meaning.specs.FlatSources.{FlatExcludesFault, FlatHasTheCircuit, OneCircuit, OneFirstFlatFault, OneListOfCopies};
ghost use Rattle.typed_form.specs.TypedLaws.{KeepsValue, KeepsRun};
ghost use Rattle.typed_form.specs.WholeLaw.{KeepsRuns, SourceRunsOnce};

/// The flat form of an expression means the same; that of a statement does the same and names the same targets.
pub fn flat_form()
    ensures meaning { FlatMeansTheSame }
    ensures run { FlatDoesTheSame }
    ensures targets { FlatNamesTheSame }
{}

/// Files have one circuit at most, which is that of their flat source; the events of its runs are those of the one list of
/// copies of arms.
pub fn circuits()
    ensures flat { FlatHasTheCircuit }
    ensures once { OneCircuit }
    ensures copies { OneListOfCopies }
    ensures events { EventsAreOfArms }
{}

/// Files with a flat source are refused nowhere, and those without one have one first fault at most.
pub fn flat_sources()
    ensures exclude { FlatExcludesFault }
    ensures once { OneFirstFlatFault }
{}

/// The typed form of an expression has its value in each state, at each size and sign of a context that holds it.
pub fn typed_value()
    ensures { KeepsValue }
{}

/// The steps of a statement do what it does, and count what stands for the arms that are entered.
pub fn typed_run()
    ensures { KeepsRun }
{}

/// The typed form of a source has its runs; and where it has one run, the source has exactly one, which is that.
pub fn typed_runs()
    ensures keeps { KeepsRuns }
    ensures once { SourceRunsOnce }
{}
