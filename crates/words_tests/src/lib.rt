//! Command lines, and what they spell, as tables. It has tests alone.
#![tactic(auto)]

#[cfg(test)]
mod tests;
