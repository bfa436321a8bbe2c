//! Laws of the text of steps, arms and blocks in design files.
#![tactic(auto)]
