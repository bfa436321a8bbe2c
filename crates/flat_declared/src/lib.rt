//! What scopes declare: names, and what each is declared as.
#![tactic(auto)]

mod declared;
mod has_name;

pub use declared::{DeclaredKind, KindOfName, declared_by_items, declared_by_module};
