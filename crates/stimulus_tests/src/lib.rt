//! Worked stimuli, as tables. It has tests alone.
#![tactic(auto)]

#[cfg(test)]
mod tests;
