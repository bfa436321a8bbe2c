//! Laws of values that are spelled by marks: what it is to read one, what the first wrong piece is, and how both go for one value behind another.
#![tactic(auto)]
