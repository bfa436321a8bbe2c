//! The scopes of a design as they are seen from its places, and what names mean there.
#![tactic(auto)]

mod place;
mod scope;
mod scopes;

pub use place::PlaceInScope;
pub use scope::{NameMeaning, SeenScope};
pub use scopes::SeenScopes;
