//! What may follow on a walk through a design, step by step.
#![tactic(auto)]
