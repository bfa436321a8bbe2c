//! The numbers of scopes on a walk through a design. No function: a definition, and the law that walks keep it.
#![tactic(auto)]
