ghost use Rattle.std.specs.Prelude.{◌≡◌, ◌&&◌};
ghost use Rattle.std.specs.List.{flat_map, list_any, list_all};
ghost use Rattle.flat_source_meaning.specs.Targets.{target_names, is_target};

use crate::names::{NameTest, either};
use vlog_tree::Expr;

/// Whether two hold.
fn both(one: bool, other: bool) -> bool
    ensures { result ≡ (one && other) }
{
    one && other
}

/// Whether a test holds of some name that a target writes. Names in its positions are none of these.
#[cycle(written)]
pub fn any_target<T: NameTest>(asked: &T, of: &Expr) -> bool
    ensures { result ≡ list_any (T.holds asked.now) (target_names of.now) }
{
    match of {
        Expr::Name(name) => return asked.holds_of(name.as_slice()),
        Expr::Select { base, select: _ } => return any_target(asked, base.get()),
        Expr::Join(parts) => return any_target_in(asked, parts.as_slice()),
        Expr::Number { .. } => return false,
        Expr::Unary { .. } => return false,
        Expr::Binary { .. } => return false,
        Expr::Choose { .. } => return false,
        Expr::Repeat { .. } => return false,
        Expr::Call { .. } => return false,
    }
}

#[cycle(written)]
fn any_target_in<T: NameTest>(asked: &T, parts: &[Expr]) -> bool
    ensures { result ≡ list_any (T.holds asked.now) (flat_map target_names parts.now) }
{
    let mut any = false;
    for part in parts {
        any = either(any, any_target(asked, part));
    }
    any
}

/// Whether an expression may be assigned to: a name with selects, or several of them in braces.
#[cycle(shaped)]
pub fn is_target(of: &Expr) -> bool
    ensures { result ≡ is_target of.now }
{
    match of {
        Expr::Name(_) => return true,
        Expr::Select { base, select: _ } => return is_target(base.get()),
        Expr::Join(parts) => return are_targets(parts.as_slice()),
        Expr::Number { .. } => return false,
        Expr::Unary { .. } => return false,
        Expr::Binary { .. } => return false,
        Expr::Choose { .. } => return false,
        Expr::Repeat { .. } => return false,
        Expr::Call { .. } => return false,
    }
}

#[cycle(shaped)]
fn are_targets(parts: &[Expr]) -> bool
    ensures { result ≡ list_all is_target parts.now }
{
    let mut all = true;
    for part in parts {
        all = both(all, is_target(part));
    }
    all
}
