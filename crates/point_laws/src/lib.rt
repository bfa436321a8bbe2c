//! Laws of coverage points, for the proofs of other crates: a call of one of these functions does nothing, and its contract is the
//! law.
#![tactic(auto)]

ghost use Rattle.point_meaning.specs.Hier.{HierIsComputed};
ghost use Rattle.point_meaning.specs.PointLaws.{BitsTell, EventsTell, KeysDiffer, OrderIsFree, TablesTellEvents, WalkNamesArms};

/// The hierarchy text of several paths is what its computation gives: the longest front, `*`, and the longest back of the rest.
pub fn hierarchy()
    ensures { HierIsComputed }
{}

/// Events and toggles are of candidates of their points, so that each event is that of one point of a table or of none. Text without
/// macros has one arm at a place.
pub fn events()
    ensures named { WalkNamesArms }
    ensures arms { EventsTell }
    ensures bits { BitsTell }
    ensures one { TablesTellEvents }
{}

/// A list of the points of a source stays one in any order, and no two of them have one key.
pub fn lists_of_points()
    ensures order { OrderIsFree }
    ensures keys { KeysDiffer }
{}
