//! Designs that tell the arms that they enter, and the same with counts: a call of one of these functions does nothing, and
//! its contract is the laws.
#![tactic(auto)]
