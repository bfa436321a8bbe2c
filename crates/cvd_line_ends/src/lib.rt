//! Where lines of design files end: what a reader knows that stops at a line feed.
#![tactic(auto)]
