//! Tables from scopes and names to values, in which the first value of a name of a scope counts.
#![tactic(auto)]

mod table;

pub use table::ScopeTable;
