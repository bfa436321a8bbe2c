//! What a step of the walk through a design gives. No function: definitions, and lemmas for the proof of the steps.
#![tactic(auto)]
