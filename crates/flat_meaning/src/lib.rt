//! What flat sources mean, and that they mean what their sources do: a call of this function does nothing, and its contract
//! is the laws.
#![tactic(auto)]
