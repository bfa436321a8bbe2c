ghost use Rattle.std.specs.Prelude.{◌≡◌};
ghost use Rattle.std.specs.Option.{option_copied};
ghost use Rattle.vlog_tree.specs.declared.expression.Expr.{out-Expr};
ghost use Rattle.flat_source_meaning.specs.Joins as spec;

use vlog_tree::{Expr, PortKind};

/// Whether a port of a kind is an input.
pub fn is_input(kind: PortKind) -> bool
    ensures { result ≡ spec.is_input_kind kind }
{
    match kind {
        PortKind::Input => true,
        PortKind::OutputWire => false,
        PortKind::OutputReg => false,
    }
}

/// The name that an expression is, where it is a name alone.
pub fn lone_name(expr: &Expr) -> Option<&[u8]>
    ensures { option_copied result ≡ spec.lone_name (out-Expr expr.now) }
{
    match expr {
        Expr::Name(name) => Some(name.as_slice()),
        Expr::Number { .. } => None,
        Expr::Select { .. } => None,
        Expr::Unary { .. } => None,
        Expr::Binary { .. } => None,
        Expr::Choose { .. } => None,
        Expr::Join(_) => None,
        Expr::Repeat { .. } => None,
        Expr::Call { .. } => None,
    }
}
