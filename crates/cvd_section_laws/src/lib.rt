//! Laws of the text of the sections of design files.
#![tactic(auto)]
