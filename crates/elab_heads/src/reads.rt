ghost use Rattle.std.specs.Prelude.{◌≡◌, [], ◌∷◌, Some};
ghost use Rattle.scope_meaning.specs.Constants as constants;
ghost use Rattle.scope_meaning.specs.Heads as heads;
ghost use Rattle.scope_meaning.specs.Wanted.{want};
ghost use Rattle.elab_faults.specs.Flaws.{Finds, flaws_in};

use crate::genvar::integer_of;
use elab_constants::Names;
use elab_faults::read_constant;
use elab_ranges::RangeFault;
use std::alloc::Global;
use vlog_tree::Expr;

/// Whether a test holds.
pub fn read_test<N: Names>(alloc: Global, names: &N, test: &Expr) -> Result<bool, RangeFault>
    ensures { (known : constants.Names) → N.environment names.now ≡ constants.constants known
        → Finds (λ holds. heads.test_of known test.now ≡ Some holds) (flaws_in (want known test.now ∷ [])) result }
{
    let term = match read_constant(alloc, names, test) {
        Ok(term) => term,
        Err(fault) => return Err(fault),
    };
    Ok(term.holds())
}

/// The value that a genvar gets from an expression.
pub fn read_genvar<N: Names>(alloc: Global, names: &N, value: &Expr) -> Result<i32, RangeFault>
    ensures { (known : constants.Names) → N.environment names.now ≡ constants.constants known
        → Finds (λ n. heads.genvar_value known value.now ≡ Some n) (flaws_in (want known value.now ∷ [])) result }
{
    let term = match read_constant(alloc, names, value) {
        Ok(term) => term,
        Err(fault) => return Err(fault),
    };
    Ok(integer_of(term.assigned(32)))
}
