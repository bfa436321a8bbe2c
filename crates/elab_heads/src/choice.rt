ghost use Rattle.std.specs.Prelude.{◌≡◌, ◌+◌, map, IfOk};
ghost use Rattle.scope_meaning.specs.Constants as constants;
ghost use Rattle.scope_meaning.specs.Heads as heads;
ghost use Rattle.scope_meaning.specs.Wanted.{want};
ghost use Rattle.elab_faults.specs.Flaws as flaws;
ghost use Rattle.elab_faults.specs.Flaws.{Finds, flaws_in};
ghost use Rattle.elab_heads.specs.Choices as spec;

use crate::reads::read_test;
use cov_types::NoMemory;
use elab_constants::Names;
use elab_counts::count_body;
use elab_faults::both;
use elab_ranges::RangeFault;
use std::alloc::Global;
use vlog_tree::{GenArm, GenBody};

/// The body that a generate `if` chooses, and the number of its first item.
#[derive(Clone, Copy)]
pub struct ChosenBody<'a> {
    pub first: u32,
    pub body: &'a GenBody,
}

/// The first of two: this one where there is none before and it holds.
fn or_this(before: Option<usize>, at: usize, holds: bool) -> Option<usize>
    ensures { result ≡ spec.or_this before at holds }
{
    match before {
        Some(before) => Some(before),
        None => {
            if holds {
                return Some(at);
            }
            None
        }
    }
}

/// The first arm whose test holds, of those before and one more.
fn with_test(
    before: Result<Option<usize>, RangeFault>,
    at: usize,
    test: Result<bool, RangeFault>,
) -> Result<Option<usize>, RangeFault>
    ensures { result ≡ spec.step_of at (flaws.both before test) }
{
    match both(before, test) {
        Ok((before, holds)) => Ok(or_this(before, at, holds)),
        Err(fault) => Err(fault),
    }
}

/// The first arm whose test holds, or what is wrong in any of the tests.
pub fn first_true<N: Names>(
    alloc: Global,
    names: &N,
    arms: &[GenArm],
) -> Result<Option<usize>, RangeFault>
    ensures { (known : constants.Names) → N.environment names.now ≡ constants.constants known
        → Finds (spec.Chooses known arms.now) (flaws_in (map (want known) (map spec.test_in arms.now))) result }
{
    let mut so_far = Ok(None);
    for (at, arm) in arms.iter().enumerate() {
        so_far = with_test(so_far, at, read_test(alloc, names, &arm.test));
    }
    so_far
}

fn sum(one: u32, other: u32) -> Result<u32, NoMemory>
    ensures { IfOk result (λ n. n ≡ one + other) }
{
    match one.checked_add(other) {
        Some(sum) => Ok(sum),
        None => Err(NoMemory),
    }
}

/// The body of the arm at a place, or where there is none the last body, where the first item of the arms has this number.
fn body_at<'a>(
    first: u32,
    arms: &'a [GenArm],
    last: &'a Option<GenBody>,
    chosen: usize,
) -> Result<Option<ChosenBody<'a>>, NoMemory>
    ensures { IfOk result (spec.IsBodyAt first arms.now last.now chosen) }
{
    let mut number = first;
    for (at, arm) in arms.iter().enumerate() {
        if at == chosen {
            return Ok(Some(ChosenBody {
                first: number,
                body: &arm.body,
            }));
        }
        number = sum(number, count_body(&arm.body)?)?;
    }
    match last {
        Some(body) => Ok(Some(ChosenBody {
            first: number,
            body,
        })),
        None => Ok(None),
    }
}

/// The body that a generate `if` chooses, where this is the first arm whose test holds. `first` is the number of the first
/// item of its arms.
pub fn chosen_body<'a>(
    first: u32,
    arms: &'a [GenArm],
    last: &'a Option<GenBody>,
    chosen: Option<usize>,
) -> Result<Option<ChosenBody<'a>>, NoMemory>
    ensures { (known : constants.Names) → spec.Chooses known arms.now chosen
        → IfOk result (spec.IsChoice (heads.choice_from known first arms.now last.now)) }
{
    match chosen {
        Some(at) => body_at(first, arms, last, at),
        None => body_at(first, arms, last, arms.len()),
    }
}
