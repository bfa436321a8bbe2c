//! That arms of a source are told by their places, for the proofs of other crates: a call of the function does nothing, and its contract
//! is the law.
#![tactic(auto)]

ghost use Rattle.arm_place_laws.specs.TokenPlaces.{TokensTellArms};

/// Where no two tokens of some files stand at one place, copies of arms that stand at one place and are entered alike are copies of one
/// arm. Tokens of text without macros stand so.
pub fn places_tell_arms()
    ensures { TokensTellArms }
{}
