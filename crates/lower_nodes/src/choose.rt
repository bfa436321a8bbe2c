ghost use Rattle.std.specs.Prelude.{List, IfOk};
ghost use Rattle.elab_types.specs.declared.flat_source.FlatVar.{FlatVar};
ghost use Rattle.elab_types.specs.declared.flat_expression.FlatExpr.{FlatExpr};
ghost use Rattle.elab_types.specs.declared.flat_expression.FlatExpr.TheVariants as e;
ghost use Rattle.lower_nodes.specs.Operators as spec;
ghost use Rattle.lower_nodes.specs.Reads.{Lowers};

use crate::binary::{greater, test};
use crate::by_itself::Reading;
use crate::together::{both, kept};
use lower_forms::{Form, SizedForm};
use sqlite_items::Boxed;
use std::alloc::{AllocError, Global};

/// `on ? yes : no`: the arms take the context.
fn choose(
    alloc: Global,
    on: SizedForm,
    yes: SizedForm,
    no: SizedForm,
) -> Result<SizedForm, AllocError>
    ensures { IfOk result (λ t. spec.IsChoice on yes no t) }
{
    let test = test(alloc, on)?;
    let size = greater(yes.size, no.size);
    let signed = yes.signed && no.signed;
    let SizedForm {
        size: _,
        signed: _,
        form: yes,
    } = yes;
    let SizedForm {
        size: _,
        signed: _,
        form: no,
    } = no;
    let yes = Boxed::new(alloc, yes)?;
    let no = Boxed::new(alloc, no)?;
    Ok(SizedForm {
        size,
        signed,
        form: Form::Choose { test, yes, no },
    })
}

/// `on ? yes : no`.
pub fn read_choice(alloc: Global, on: Reading, yes: Reading, no: Reading) -> Reading
    ensures { (vars : List FlatVar) (t a b : FlatExpr) → Lowers vars t on → Lowers vars a yes → Lowers vars b no
        → Lowers vars (e.Choose t a b) result }
{
    let arms = both(yes, no);
    let all = both(on, arms);
    match all {
        Ok((on, arms)) => {
            let (yes, no) = arms;
            kept(choose(alloc, on, yes, no))
        }
        Err(fault) => Err(fault),
    }
}
