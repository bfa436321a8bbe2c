//! Laws of what typed forms drive and how they run, for the proofs of other crates: a call of one of these functions does
//! nothing, and its contract is the law.
#![tactic(auto)]

ghost use Rattle.typed_drive_laws.specs.DriveLaws.{FlatBodiesAreFormed, TypedDrivesTheSame};
ghost use Rattle.typed_drive_laws.specs.FileRuns.{RunsAreTyped, TypedRunIsOnly};

/// The bodies of a flat source are well formed, so the processes of its typed form drive the bits that those of the source
/// drive.
pub fn typed_drives()
    ensures formed { FlatBodiesAreFormed }
    ensures drives { TypedDrivesTheSame }
{}

/// The typed form of the flat source of some files has the runs of the files' circuit; and where it has one run, the circuit
/// has exactly one, which is that.
pub fn files_run()
    ensures keeps { RunsAreTyped }
    ensures once { TypedRunIsOnly }
{}
