ghost use Rattle.std.specs.Prelude.{◌≤◌};

use crate::form::Form;
use crate::settle::settle;
use design_tree::Typed;
use std::alloc::{AllocError, Global};

/// An expression's typed form with the size and sign that it has by itself. Its nodes wait for those of its context.
#[derive(Drop)]
pub struct SizedForm {
    pub size: u8,
    pub signed: bool,
    pub form: Form,
    ghost at_least: { 1 ≤ size },
    ghost at_most: { size ≤ 128 },
}

impl SizedForm {
    ghost use Rattle.std.specs.Prelude.{◌≡◌, IfOk};
    ghost use Rattle.lower_forms.specs.Forms.{settled};

    /// The typed form in a context.
    pub fn at(self, alloc: Global, size: u8, by_sign: bool) -> Result<Typed, AllocError>
        ensures { IfOk result (λ a. a ≡ settled size by_sign self.form) }
    {
        let SizedForm {
            size: _,
            signed: _,
            form,
        } = self;
        settle(alloc, form, size, by_sign)
    }

    /// The typed form by itself.
    pub fn own(self, alloc: Global) -> Result<Typed, AllocError>
        ensures { IfOk result (λ a. a ≡ settled self.size self.signed self.form) }
    {
        let SizedForm { size, signed, form } = self;
        settle(alloc, form, size, signed)
    }
}
