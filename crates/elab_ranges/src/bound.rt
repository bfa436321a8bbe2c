ghost use Rattle.std.specs.Prelude.{◌≡◌, ◌≤◌, ◌<◌, ◌^◌, ◌-◌, ◌↔◌, IsTrue, MatchOption, pos, false};
ghost use Rattle.source_meaning.specs.Meaning.{Meaning, fixed_integer};
ghost use Rattle.scope_meaning.specs.Constants as constants;
ghost use Rattle.scope_meaning.specs.Ranges.{is_bound};
ghost use Rattle.elab_constants.specs.Sized.{IsSized};
ghost use Rattle.elab_ranges.specs.Bounds.{IsBound, facts};

use bit_values::Bits;
use elab_constants::{ConstantFault, Names, SizedTerm, read};
use std::alloc::Global;
use vlog_tree::Expr;

/// Whether the top bit is set, so that the signed reading is below 0.
fn is_negative(of: Bits) -> bool
    ensures { IsTrue result ↔ (2 ^ (of.width - 1) ≤ of.bits) }
{
    of.bits >> (of.width - 1) == 1
}

/// The value as a bound of a range: none where it is negative or past `2^31 - 1`.
fn bound_of(term: &SizedTerm) -> Option<u32>
    ensures { (m : Meaning) → IsSized m term.now
        → MatchOption result (is_bound (fixed_integer m) ≡ false) (λ n. (n < 2 ^ 31) × (fixed_integer m ≡ pos n)) }
{
    let own = term.own();
    if term.signed && is_negative(own) {
        return None;
    }
    if own.bits >= 2_147_483_648 {
        return None;
    }
    Some(own.bits as u32)
}

/// A bound of a range: a number, or none where it is a constant that no bound may be.
pub(crate) fn read_bound<N: Names>(
    alloc: Global,
    names: &N,
    expr: &Expr,
) -> Result<Option<u32>, ConstantFault>
    ensures { (known : constants.Names) → N.environment names.now ≡ constants.constants known → IsBound (facts known expr.now) result }
{
    match read(alloc, names, expr) {
        Ok(term) => Ok(bound_of(&term)),
        Err(fault) => Err(fault),
    }
}
