//! Worked cases of rankings, as a table. It has tests alone.
#![tactic(auto)]

#[cfg(test)]
mod tests;
