//! What a build of some files is, and what simulating it gives: a call of one of these functions does nothing, and its
//! contract is the law.
#![tactic(auto)]
