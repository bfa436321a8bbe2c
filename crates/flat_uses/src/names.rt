ghost use Rattle.std.specs.Prelude.{◌≡◌, ◌||◌};
ghost use Rattle.std.specs.List.{flat_map, list_any};
ghost use Rattle.flat_source_meaning.specs.Names.{names_in};
ghost use Rattle.flat_uses.specs.SelectNames.{names_of_select};

use vlog_tree::{Expr, Select};

/// A test on names.
pub trait NameTest {
    ghost use Rattle.std.specs.Prelude.{◌≡◌, List, ℕ, Bool};

    ghost holds: { Self → List ℕ → Bool };

    /// Whether it holds of a name.
    fn holds_of(&self, name: &[u8]) -> bool
        ensures { result ≡ holds self.now name.now };
}

/// Whether one of two holds.
pub(crate) fn either(one: bool, other: bool) -> bool
    ensures { result ≡ (one || other) }
{
    one || other
}

/// Whether a test holds of some name that stands in an expression, in its selects too.
#[cycle(used)]
pub fn any_name<T: NameTest>(asked: &T, of: &Expr) -> bool
    ensures { result ≡ list_any (T.holds asked.now) (names_in of.now) }
{
    match of {
        Expr::Number { .. } => return false,
        Expr::Name(name) => return asked.holds_of(name.as_slice()),
        Expr::Select { base, select } => {
            return either(any_name(asked, base.get()), any_in_select(asked, select));
        }
        Expr::Unary { op: _, of } => return any_name(asked, of.get()),
        Expr::Binary { op: _, left, right } => {
            return either(any_name(asked, left.get()), any_name(asked, right.get()));
        }
        Expr::Choose { test, yes, no } => {
            return either(
                either(any_name(asked, test.get()), any_name(asked, yes.get())),
                any_name(asked, no.get()),
            );
        }
        Expr::Join(parts) => return any_in_parts(asked, parts.as_slice()),
        Expr::Repeat { count, parts } => {
            return either(
                any_name(asked, count.get()),
                any_in_parts(asked, parts.as_slice()),
            );
        }
        Expr::Call { name: _, of } => return any_name(asked, of.get()),
    }
}

#[cycle(used)]
fn any_in_select<T: NameTest>(asked: &T, select: &Select) -> bool
    ensures { result ≡ list_any (T.holds asked.now) (names_of_select select.now) }
{
    match select {
        Select::At(at) => return any_name(asked, at.get()),
        Select::Between(high, low) => {
            return either(any_name(asked, high.get()), any_name(asked, low.get()));
        }
        Select::Up(from, width) => {
            return either(any_name(asked, from.get()), any_name(asked, width.get()));
        }
        Select::Down(from, width) => {
            return either(any_name(asked, from.get()), any_name(asked, width.get()));
        }
    }
}

#[cycle(used)]
fn any_in_parts<T: NameTest>(asked: &T, parts: &[Expr]) -> bool
    ensures { result ≡ list_any (T.holds asked.now) (flat_map names_in parts.now) }
{
    let mut any = false;
    for part in parts {
        any = either(any, any_name(asked, part));
    }
    any
}

/// Whether a test holds of some name that stands in one of some expressions.
pub fn any_name_in<T: NameTest>(asked: &T, exprs: &[Expr]) -> bool
    ensures { result ≡ list_any (T.holds asked.now) (flat_map names_in exprs.now) }
{
    any_in_parts(asked, exprs)
}
