//! The typed form of a flat source, and that it has the source's runs: a call of one of these functions does nothing, and its
//! contract is the law.
#![tactic(auto)]
