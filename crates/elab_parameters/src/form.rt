ghost use Rattle.std.specs.Prelude.{◌≡◌, ℕ, List};
ghost use Rattle.source_meaning.specs.Meaning.{Meaning};
ghost use Rattle.scope_meaning.specs.Constants as constants;
ghost use Rattle.scope_meaning.specs.Wanted.{form_range};
ghost use Rattle.elab_constants.specs.Sized.{IsSized};
ghost use Rattle.elab_ranges.specs.Parameters.{named};
ghost use Rattle.elab_faults.specs.Flaws.{Finds, vector_flaws};
ghost use Rattle.elab_parameters.specs.Forms as spec;

use crate::size::FixedSize;
use elab_constants::{ConstantValue, Names, SizedTerm};
use elab_ranges::{RangeFault, vector_range};
use std::alloc::Global;
use vlog_tree::ParamForm;

/// The size and sign that the form of a declaration gives its parameters.
#[derive(Clone, Copy)]
pub(crate) enum FormSize {
    /// Those of each value.
    Own,
    /// These.
    Fixed(FixedSize),
}

/// The size and sign of a form, or what is wrong with its range. The names are those before the declaration.
pub(crate) fn form_size<N: Names>(
    alloc: Global,
    names: &N,
    form: &ParamForm,
) -> Result<FormSize, RangeFault>
    ensures { (known : constants.Names) → N.environment names.now ≡ constants.constants known
        → Finds (spec.HasSize known form.now) (vector_flaws known (form_range form.now)) result }
{
    match form {
        ParamForm::Plain => Ok(FormSize::Own),
        ParamForm::Integer => Ok(FormSize::Fixed(FixedSize {
            width: 32,
            signed: true,
        })),
        ParamForm::Ranged { signed, range } => {
            match vector_range(alloc, names, range.get()) {
                Ok(span) => Ok(FormSize::Fixed(FixedSize {
                    width: span.width,
                    signed: *signed,
                })),
                Err(fault) => Err(fault),
            }
        }
    }
}

/// What a parameter of this size and sign has where this is its value: the value by itself, or as an assignment.
pub(crate) fn value_in(size: FormSize, value: &SizedTerm) -> ConstantValue
    ensures { (m : Meaning) (name : List ℕ) → IsSized m value.now → named name result ≡ spec.sized size name m }
{
    match size {
        FormSize::Own => ConstantValue {
            value: value.own(),
            signed: value.signed,
        },
        FormSize::Fixed(size) => ConstantValue {
            value: value.assigned(size.width),
            signed: size.signed,
        },
    }
}
