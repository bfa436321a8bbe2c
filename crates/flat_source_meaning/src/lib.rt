//! What the flat source of a design is, and the circuit of a design: a call of one of these functions does nothing, and its
//! contract is the laws.
#![tactic(auto)]
