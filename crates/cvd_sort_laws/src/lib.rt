//! Laws of where numbers stand in the text of design files.
#![tactic(auto)]
