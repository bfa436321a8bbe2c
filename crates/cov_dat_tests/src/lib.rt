//! That data files read by lines are those read as a whole. It has tests alone.
#![tactic(auto)]

#[cfg(test)]
mod tests;
