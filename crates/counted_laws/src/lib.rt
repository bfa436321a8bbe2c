//! Laws of designs with counts, for the proofs of other crates: a call of one of these functions does nothing, and its contract is the
//! law.
#![tactic(auto)]

ghost use Rattle.counted_laws.specs.ErasedLaw.{ErasingGivesBack};
ghost use Rattle.counted_laws.specs.ValidLaw.{CountedIsValid};
ghost use Rattle.counted_laws.specs.DerivedTable.{DerivedCountsGive, RowsInstrument};

/// A design with counts, without them, is the design again.
pub fn erasing()
    ensures { ErasingGivesBack }
{}

/// A design with counts is valid where the design is, its counters, toggle entries and points are, and it is within the limits that counts
/// and points add to.
pub fn validity()
    ensures { CountedIsValid }
{}

/// Rows made of the plus and minus lists of the arms of each point, with one counter for the bits of each, give the points of a table; and
/// with rows that give them a valid design instruments the design with the table.
pub fn derived_rows()
    ensures gives { DerivedCountsGive }
    ensures instruments { RowsInstrument }
{}
