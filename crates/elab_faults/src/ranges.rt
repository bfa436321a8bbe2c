ghost use Rattle.std.specs.Prelude.{◌≡◌, [], ◌∷◌, map, ◌||◌, Bool};
ghost use Rattle.std.specs.List.{filter_map, list_any};
ghost use Rattle.vlog_tree.specs.Trees.{option_list};
ghost use Rattle.scope_meaning.specs.Constants as constants;
ghost use Rattle.scope_meaning.specs.Ranges.{words};
ghost use Rattle.scope_meaning.specs.ScopeRules.{is_past};
ghost use Rattle.scope_meaning.specs.Wanted.{want};
ghost use Rattle.elab_constants.specs.Sized.{IsSized};
ghost use Rattle.elab_faults.specs.Flaws.{Finds, Flaws, flaws_in, both_flaws};
ghost use Rattle.elab_faults.specs.Flaws as spec;
ghost use Rattle.elab_faults.specs.Judged.{Nothing};

use crate::flaw::{both, of_constant};
use elab_constants::{Names, SizedTerm, read};
use elab_ranges::{RangeFault, Words, memory_range, vector_range};
use std::alloc::Global;
use vlog_tree::{Expr, RangeExpr, RegName};

/// More words than a memory may have.
const WORDS: u64 = 65_536;

/// A constant with its size and sign, or what is wrong in it.
pub fn read_constant<N: Names>(
    alloc: Global,
    names: &N,
    expr: &Expr,
) -> Result<SizedTerm, RangeFault>
    ensures { (known : constants.Names) → N.environment names.now ≡ constants.constants known
        → Finds (IsSized (constants.read (constants.constants known) expr.now).meaning) (flaws_in (want known expr.now ∷ [])) result }
{
    match read(alloc, names, expr) {
        Ok(term) => Ok(term),
        Err(fault) => Err(of_constant(fault)),
    }
}

/// What is wrong with the range of a vector.
pub fn vector_flaw<N: Names>(alloc: Global, names: &N, range: &RangeExpr) -> Result<(), RangeFault>
    ensures { (known : constants.Names) → N.environment names.now ≡ constants.constants known
        → Finds Nothing (spec.vector_flaws known (range.now ∷ [])) result }
{
    match vector_range(alloc, names, range) {
        Ok(_) => Ok(()),
        Err(fault) => Err(fault),
    }
}

/// What is wrong with the range of a vector, if it has one.
pub fn vector_flaws<N: Names>(
    alloc: Global,
    names: &N,
    range: &Option<RangeExpr>,
) -> Result<(), RangeFault>
    ensures { (known : constants.Names) → N.environment names.now ≡ constants.constants known
        → Finds Nothing (spec.vector_flaws known (option_list range.now)) result }
{
    match range {
        Some(range) => vector_flaw(alloc, names, range),
        None => Ok(()),
    }
}

/// Whether a memory has more words than are taken, or what is wrong with its range.
fn memory_flaw<N: Names>(alloc: Global, names: &N, range: &RangeExpr) -> Result<bool, RangeFault>
    ensures { (known : constants.Names) → N.environment names.now ≡ constants.constants known
        → Finds (λ large. large ≡ is_past (words known range.now)) (spec.memory_flaws known (range.now ∷ [])) result }
{
    match memory_range(alloc, names, range) {
        Ok(words) => Ok(words.count > WORDS),
        Err(fault) => Err(fault),
    }
}

/// The same of the memory that a reg may be.
fn memory_flaw_of<N: Names>(alloc: Global, names: &N, reg: &RegName) -> Result<bool, RangeFault>
    ensures { (known : constants.Names) → N.environment names.now ≡ constants.constants known
        → Finds (λ large. large ≡ list_any (λ r. is_past (words known r)) (option_list reg.now.words))
        (spec.memory_flaws known (option_list reg.now.words)) result }
{
    match &reg.words {
        Some(range) => memory_flaw(alloc, names, range),
        None => Ok(false),
    }
}

/// Whether one of two holds.
fn one_of(one: bool, other: bool) -> bool
    ensures { result ≡ (one || other) }
{
    one || other
}

/// Whether one of two holds, or what hinders.
fn either(
    one: Result<bool, RangeFault>,
    other: Result<bool, RangeFault>,
) -> Result<bool, RangeFault>
    ensures { (v w : Flaws) (a b : Bool) → Finds (λ x. x ≡ a) v one → Finds (λ x. x ≡ b) w other
        → Finds (λ x. x ≡ (a || b)) (both_flaws v w) result }
{
    match both(one, other) {
        Ok((one, other)) => Ok(one_of(one, other)),
        Err(fault) => Err(fault),
    }
}

/// Whether one of some memories has more words than are taken, or what is wrong with their ranges.
pub fn memory_flaws<N: Names>(
    alloc: Global,
    names: &N,
    regs: &[RegName],
) -> Result<bool, RangeFault>
    ensures { (known : constants.Names) → N.environment names.now ≡ constants.constants known
        → Finds (λ large. large ≡ list_any (λ r. is_past (words known r)) (filter_map (λ r. r.words) regs.now))
        (spec.memory_flaws known (filter_map (λ r. r.words) regs.now)) result }
{
    let mut so_far = Ok(false);
    for reg in regs {
        so_far = either(so_far, memory_flaw_of(alloc, names, reg));
    }
    so_far
}

/// Nothing, or what hinders one of two.
fn also(one: Result<(), RangeFault>, other: Result<(), RangeFault>) -> Result<(), RangeFault>
    ensures { (v w : Flaws) → Finds Nothing v one → Finds Nothing w other → Finds Nothing (both_flaws v w) result }
{
    match both(one, other) {
        Ok(both) => Ok(both.0),
        Err(fault) => Err(fault),
    }
}

/// What is wrong in an expression that has to be a constant.
fn expression_flaw<N: Names>(alloc: Global, names: &N, expr: &Expr) -> Result<(), RangeFault>
    ensures { (known : constants.Names) → N.environment names.now ≡ constants.constants known
        → Finds Nothing (flaws_in (want known expr.now ∷ [])) result }
{
    let term = match read_constant(alloc, names, expr) {
        Ok(term) => term,
        Err(fault) => return Err(fault),
    };
    drop(term);
    Ok(())
}

/// What is wrong in the start of a reg, if it has one.
fn start_flaw<N: Names>(alloc: Global, names: &N, reg: &RegName) -> Result<(), RangeFault>
    ensures { (known : constants.Names) → N.environment names.now ≡ constants.constants known
        → Finds Nothing (flaws_in (map (want known) (option_list reg.now.start))) result }
{
    match &reg.start {
        Some(start) => expression_flaw(alloc, names, start),
        None => Ok(()),
    }
}

/// What is wrong in the starts of regs.
pub fn start_flaws<N: Names>(alloc: Global, names: &N, regs: &[RegName]) -> Result<(), RangeFault>
    ensures { (known : constants.Names) → N.environment names.now ≡ constants.constants known
        → Finds Nothing (flaws_in (map (want known) (filter_map (λ r. r.start) regs.now))) result }
{
    let mut so_far = Ok(());
    for reg in regs {
        so_far = also(so_far, start_flaw(alloc, names, reg));
    }
    so_far
}
