ghost use Rattle.std.specs.Prelude.{◌≡◌, List, ◌∷◌, [], Some};
ghost use Rattle.scope_meaning.specs.Constants.{constants};
ghost use Rattle.scope_meaning.specs.Scope.{Frame, constants_at, with_genvar};
ghost use Rattle.scope_meaning.specs.Heads as heads;
ghost use Rattle.scope_meaning.specs.Wanted.{want};
ghost use Rattle.elab_names.specs.Frames.{AreFrames};
ghost use Rattle.elab_faults.specs.Flaws.{Finds, flaws_in};
ghost use Rattle.elab_heads.specs.Passes.{value_or_zero, head_wanted};

use crate::pass::PassNames;
use crate::reads::{read_genvar, read_test};
use elab_faults::both;
use elab_names::{ScopeNames, VisibleNames};
use elab_ranges::RangeFault;
use std::alloc::Global;
use vlog_tree::Expr;

/// The head of a generate loop: the names in it, its first value, its test and its step.
#[derive(Clone, Copy)]
pub struct LoopHead<'a> {
    pub name: &'a [u8],
    pub from: &'a Expr,
    pub test: &'a Expr,
    pub step_name: &'a [u8],
    pub step: &'a Expr,
}

/// The first value; 0 where there is none, with which test and step are read all the same.
fn value_or_zero(value: &Result<i32, RangeFault>) -> i32
    ensures { result ≡ value_or_zero value.now }
{
    match value {
        Ok(value) => *value,
        Err(_) => 0,
    }
}

/// The first value of a generate loop, or what is wrong in its head.
pub fn loop_head(
    alloc: Global,
    scopes: &[ScopeNames],
    head: LoopHead<'_>,
) -> Result<i32, RangeFault>
    ensures { (fs : List Frame) → AreFrames fs scopes.now
        → Finds (λ n. heads.genvar_value (constants_at fs) head.entry.from.now ≡ Some n)
        (flaws_in (head_wanted fs head.entry.name.now head.entry.from.now head.entry.test.now head.entry.step.now)) result }
{
    let visible = VisibleNames::new(scopes);
    let from = read_genvar(alloc, &visible, head.from);
    let pass = PassNames::new(scopes, head.name, value_or_zero(&from));
    let test = read_test(alloc, &pass, head.test);
    let step = read_genvar(alloc, &pass, head.step);
    match both(from, both(test, step)) {
        Ok((from, _)) => Ok(from),
        Err(fault) => Err(fault),
    }
}
