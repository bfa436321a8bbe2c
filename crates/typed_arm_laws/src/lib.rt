//! The law of the numbers of arms, for the proofs of other crates: a call of its function does nothing, and its contract is the
//! law.
#![tactic(auto)]

ghost use Rattle.typed_arm_laws.specs.ArmLaws.{ArmsHaveTheirRows};

/// The arms that a typed form tells have the numbers of its source's rows of arms.
pub fn rows_of_arms()
    ensures { ArmsHaveTheirRows }
{}
