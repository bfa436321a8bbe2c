ghost use Rattle.std.specs.Prelude.{List, IfOk};
ghost use Rattle.elab_types.specs.declared.flat_source.FlatVar.{FlatVar};
ghost use Rattle.elab_types.specs.declared.flat_expression.FlatExpr.{FlatExpr};
ghost use Rattle.elab_types.specs.declared.flat_expression.FlatExpr.TheVariants as e;
ghost use Rattle.lower_nodes.specs.Operators as spec;
ghost use Rattle.lower_nodes.specs.Reads.{Lowers};

use crate::by_itself::{Reading, alone};
use crate::together::kept;
use lower_forms::SizedForm;
use std::alloc::{AllocError, Global};

/// An expression by itself, read by another sign.
fn with_sign(alloc: Global, signed: bool, of: SizedForm) -> Result<SizedForm, AllocError>
    ensures { IfOk result (λ t. spec.IsSigned signed of t) }
{
    let size = of.size;
    let own = of.own(alloc)?;
    Ok(alone(size, signed, own))
}

/// `$signed`, or where it isn't `$unsigned`.
pub fn read_call(alloc: Global, signed: bool, of: Reading) -> Reading
    ensures { (vars : List FlatVar) (a : FlatExpr) → Lowers vars a of → Lowers vars (e.Call (spec.sign_call signed) a) result }
{
    match of {
        Ok(of) => kept(with_sign(alloc, signed, of)),
        Err(fault) => Err(fault),
    }
}
