//! Laws of valid designs: they are those of whose text all lines stand.
#![tactic(auto)]
