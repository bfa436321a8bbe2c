//! What names mean at a place of a design.
#![tactic(auto)]

mod declared;
mod has_name;
mod scope_names;
mod visible;

pub use declared::{
    DeclaredName, NameKind, declared_by_item, declared_by_items, declared_by_module,
};
pub use scope_names::{NameMeaning, PassGenvar, ScopeNames};
pub use visible::VisibleNames;
