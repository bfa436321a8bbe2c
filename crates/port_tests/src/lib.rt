//! What the system's files and streams give and take. It has tests alone.
#![tactic(auto)]

#[cfg(test)]
mod tests;
