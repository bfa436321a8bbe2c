//! Laws of typed forms as parts of valid designs, for the proofs of other crates: a call of the function does nothing, and its
//! contract is the laws.
#![tactic(auto)]

ghost use Rattle.typed_valid_laws.specs.ValidLaws.{TypedFormsAgree, TypedStepsAreFormed};

/// The typed form of an expression is well typed, and as wide as its context; the steps of a statement are well formed.
pub fn typed_forms_agree()
    ensures expressions { TypedFormsAgree }
    ensures steps { TypedStepsAreFormed }
{}
