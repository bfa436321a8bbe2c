ghost use Rattle.std.specs.Prelude.{◌≡◌, List, true};
ghost use Rattle.elab_types.specs.declared.flat_source.FlatVar.{FlatVar};
ghost use Rattle.elab_types.specs.declared.flat_expression.FlatExpr.{FlatExpr};
ghost use Rattle.elab_types.specs.declared.flat_expression.FlatExpr.TheVariants as e;
ghost use Rattle.vlog_tree.specs.declared.operator.SystemCall.TheVariants as call;
ghost use Rattle.flat_meaning.specs.Expressions.{meaning};
ghost use Rattle.flat_constants.specs.Values.{GivesValue};
ghost use Rattle.lower_meaning.specs.Constants.{is_right};
ghost use Rattle.lower_nodes.specs.Reads.{Lowers};

use design_tree::Typed;
use flat_constants::{ConstantFault, FixedValue};
use lower_nodes::{ExpressionFault, Reading, alone};

/// `$clog2` of a constant, from the value of the whole call.
pub fn read_logarithm(value: Result<FixedValue, ConstantFault>) -> Reading
    ensures { (vars : List FlatVar) (a : FlatExpr) → is_right (e.Call call.CeilLog2 a) ≡ true → GivesValue (meaning vars (e.Call call.CeilLog2 a)) value
        → Lowers vars (e.Call call.CeilLog2 a) result }
{
    match value {
        Ok(found) => {
            let value = found.value.bits;
            Ok(alone(32, true, Typed::Number { width: 32, value }))
        }
        Err(_) => Err(ExpressionFault::NoMemory),
    }
}
