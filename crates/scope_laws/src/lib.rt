//! Laws of scopes, for the proofs of other crates: a call of one of these functions does nothing, and its contract is the
//! law.
#![tactic(auto)]

ghost use Rattle.scope_meaning.specs.ScopeTrees.{WalksAgree, TreeExcludesFault, OneFirstFault};

/// Each walk through a design is a front of the whole one, so a design has one whole walk at most.
pub fn walks()
    ensures { WalksAgree }
{}

/// A design with a scope tree is refused nowhere, and one without has one first fault.
pub fn trees()
    ensures exclude { TreeExcludesFault }
    ensures once { OneFirstFault }
{}
