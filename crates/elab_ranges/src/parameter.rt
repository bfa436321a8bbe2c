ghost use Rattle.std.specs.Prelude.{◌≡◌};
ghost use Rattle.source_meaning.specs.Meaning.{Meaning};
ghost use Rattle.scope_meaning.specs.Constants as constants;
ghost use Rattle.elab_constants.specs.Sized.{IsSized};
ghost use Rattle.elab_ranges.specs.Parameters.{IsParameter};

use crate::fault::RangeFault;
use crate::range::vector_range;
use elab_constants::{ConstantValue, Names, SizedTerm};
use std::alloc::Global;
use vlog_tree::ParamForm;

/// What a parameter of this form has where this is its value: the value by itself, or as an assignment where the form has a
/// size. The names of the form's range are those before the declaration.
pub fn parameter_value<N: Names>(
    alloc: Global,
    names: &N,
    form: &ParamForm,
    value: &SizedTerm,
) -> Result<ConstantValue, RangeFault>
    ensures { (known : constants.Names) (m : Meaning) → N.environment names.now ≡ constants.constants known → IsSized m value.now
        → IsParameter known m form.now result }
{
    match form {
        ParamForm::Plain => Ok(ConstantValue {
            value: value.own(),
            signed: value.signed,
        }),
        ParamForm::Integer => Ok(ConstantValue {
            value: value.assigned(32),
            signed: true,
        }),
        ParamForm::Ranged { signed, range } => {
            let span = vector_range(alloc, names, range.get());
            match span {
                Ok(span) => Ok(ConstantValue {
                    value: value.assigned(span.width),
                    signed: *signed,
                }),
                Err(fault) => Err(fault),
            }
        }
    }
}
