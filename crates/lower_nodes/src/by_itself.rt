ghost use Rattle.std.specs.Prelude.{◌≡◌, ◌≤◌, ℕ, List, true};
ghost use Rattle.elab_types.specs.declared.flat_source.FlatVar.{FlatVar};
ghost use Rattle.elab_types.specs.declared.flat_expression.FlatExpr.TheVariants as e;
ghost use Rattle.lower_forms.specs.declared.form.Form.TheVariants as f;
ghost use Rattle.lower_meaning.specs.SoundExpressions.{is_sound_number};
ghost use Rattle.lower_nodes.specs.Reads.{Lowers};

use crate::fault::ExpressionFault;
use design_tree::Typed;
use lower_forms::{Form, SizedForm};

/// The typed form of an expression, or the first reason for its having none.
pub type Reading = Result<SizedForm, ExpressionFault>;

/// What is valued by itself.
pub fn alone(size: u8, signed: bool, typed: Typed) -> SizedForm
    requires at_least { 1 ≤ size }
    requires at_most { size ≤ 128 }
    ensures size { result.size ≡ size }
    ensures signed { result.signed ≡ signed }
    ensures form { result.form ≡ f.Alone size typed }
{
    SizedForm {
        size,
        signed,
        form: Form::Alone { size, typed },
    }
}

/// A number, or the value of a constant.
pub fn read_number(width: u8, signed: bool, value: u128) -> Reading
    ensures { (vars : List FlatVar) (free : ℕ) → is_sound_number width value ≡ true → Lowers vars (e.Number width signed value free) result }
{
    if width > 128 {
        return Err(ExpressionFault::WidthPast128);
    }
    if width == 0 {
        return Err(ExpressionFault::WidthPast128);
    }
    Ok(alone(width, signed, Typed::Number { width, value }))
}
