//! Laws of line lists and of the keys of coverage points, for the proofs of other crates: a call of one of these functions does
//! nothing, and its contract is the law.
#![tactic(auto)]

ghost use Rattle.cov_points.specs.KeyLaw.{KeyIsKey, KeyTellsAll};
ghost use Rattle.point_key_laws.specs.LineLaws.{RunsTellLists, TextTellsLists};

/// A set of lines has one list of ranges, and a list of ranges is told by its text.
pub fn line_lists()
    ensures runs { RunsTellLists }
    ensures text { TextTellsLists }
{}

/// The key of a plain point is a key of a data file, and points with one key are equal but for the number of their file, whose
/// name stands for it.
pub fn keys()
    ensures is_key { KeyIsKey }
    ensures tells { KeyTellsAll }
{}
