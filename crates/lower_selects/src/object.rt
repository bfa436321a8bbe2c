ghost use Rattle.std.specs.Prelude.{◌≡◌, List, IfOk, Some, slice_get, true, false};
ghost use Rattle.elab_types.specs.declared.flat_source.FlatVar as declared;
ghost use Rattle.elab_types.specs.declared.flat_expression.FlatExpr.{FlatExpr};
ghost use Rattle.elab_types.specs.declared.flat_expression.FlatExpr.TheVariants as e;
ghost use Rattle.elab_types.specs.declared.flat_expression.FlatSelect.{FlatSelect};
ghost use Rattle.elab_types.specs.declared.flat_expression.FlatSelect.TheVariants as select;
ghost use Rattle.design_tree.specs.declared.typed.Typed.TheVariants as t;
ghost use Rattle.lower_forms.specs.declared.form.Form.TheVariants as f;
ghost use Rattle.typed_form.specs.TypedExpressions.{IsVariable};
ghost use Rattle.lower_meaning.specs.SoundSources.{IsSoundVariable};
ghost use Rattle.lower_nodes.specs.Operators.{Is};
ghost use Rattle.lower_nodes.specs.Reads.{Lowers};
ghost use Rattle.lower_selects.specs.Objects as spec;
ghost use Rattle.lower_selects.specs.Places.{Places};

use crate::place::Placing;
use crate::position::{Position, own_index};
use crate::range::some_bits;
use crate::width::Width;
use design_tree::Typed;
use elab_types::FlatVar;
use lower_forms::SizedForm;
use lower_nodes::{ExpressionFault, Reading, alone, both, kept};
use sqlite_items::Boxed;
use std::alloc::{AllocError, Global};

/// It has a range; an integer has one from 31 to 0.
pub fn is_vector(of: &FlatVar) -> bool
    ensures { result ≡ spec.is_vector of.now }
{
    of.vector || of.integer
}

/// A variable by itself. A memory may not stand without an index.
pub fn read_variable(var: u32, of: &FlatVar) -> Reading
    ensures { (vars : List declared.FlatVar) → slice_get vars var ≡ Some of.now → IsSoundVariable of.now → Lowers vars (e.Var var) result }
{
    if of.memory {
        return Err(ExpressionFault::BadSelect);
    }
    match some_bits(of.width) {
        Ok(width) => Ok(alone(width.bits, of.signed, Typed::Var { var })),
        Err(fault) => Err(fault),
    }
}

/// The node of a word of a memory.
fn word(alloc: Global, var: u32, word_low: u32, at: SizedForm) -> Result<Typed, AllocError>
    ensures { IfOk result (λ a. a ≡ spec.word var word_low at) }
{
    let at = own_index(alloc, word_low, at)?;
    Ok(Typed::Word { var, at })
}

fn word_form(
    alloc: Global,
    var: u32,
    of: &FlatVar,
    at: SizedForm,
    width: Width,
) -> Result<SizedForm, AllocError>
    ensures { IfOk result (λ t. Is width.bits of.now.signed (f.Alone width.bits (spec.word var of.now.word_low at)) t) }
{
    let all = word(alloc, var, of.word_low, at)?;
    Ok(alone(width.bits, of.signed, all))
}

/// A word of a memory.
pub fn read_word(alloc: Global, var: u32, of: &FlatVar, at: Reading) -> Reading
    ensures { (vars : List declared.FlatVar) (i : FlatExpr) → IsVariable vars var true of.now → IsSoundVariable of.now → Lowers vars i at
        → Lowers vars (e.Select (e.Var var) (select.At i)) result }
{
    let width = some_bits(of.width);
    let all = both(at, width);
    match all {
        Ok((at, width)) => kept(word_form(alloc, var, of, at, width)),
        Err(fault) => Err(fault),
    }
}

fn part(alloc: Global, of: Typed, place: Position) -> Result<SizedForm, AllocError>
    ensures { IfOk result (λ t. spec.IsPart of place t) }
{
    let Position { width, at } = place;
    let of = Boxed::new(alloc, of)?;
    let bits = width.bits;
    let all = Typed::Part {
        width: bits,
        of,
        at,
    };
    Ok(alone(bits, false, all))
}

/// Bits of a variable.
pub fn read_part(alloc: Global, var: u32, place: Placing) -> Reading
    ensures { (vars : List declared.FlatVar) (v : declared.FlatVar) (s : FlatSelect) → IsVariable vars var false v → IsSoundVariable v
        → spec.is_vector v ≡ true → Places vars v.low s place → Lowers vars (e.Select (e.Var var) s) result }
{
    match place {
        Ok(place) => kept(part(alloc, Typed::Var { var }, place)),
        Err(fault) => Err(fault),
    }
}

fn word_part(
    alloc: Global,
    var: u32,
    word_low: u32,
    at: SizedForm,
    place: Position,
) -> Result<SizedForm, AllocError>
    ensures { IfOk result (λ t. spec.IsPart (spec.word var word_low at) place t) }
{
    let all = word(alloc, var, word_low, at)?;
    part(alloc, all, place)
}

/// Bits of a word of a memory.
pub fn read_word_part(alloc: Global, var: u32, of: &FlatVar, at: Reading, place: Placing) -> Reading
    ensures { (vars : List declared.FlatVar) (i : FlatExpr) (s : FlatSelect) → IsVariable vars var true of.now → IsSoundVariable of.now
        → spec.is_vector of.now ≡ true → Lowers vars i at → Places vars of.now.low s place
        → Lowers vars (e.Select (e.Select (e.Var var) (select.At i)) s) result }
{
    let all = both(at, place);
    match all {
        Ok((at, place)) => kept(word_part(alloc, var, of.word_low, at, place)),
        Err(fault) => Err(fault),
    }
}
