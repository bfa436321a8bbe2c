ghost use Rattle.std.specs.Prelude.{◌≡◌, ◌≤◌, ℕ, None, List, [], ◌∷◌, ◌++◌, nat_lt, ◌^◌};
ghost use Rattle.vlog_tree.specs.declared.expression.Expr.TheOpen as e;
ghost use Rattle.source_meaning.specs.Environment.{Environment};
ghost use Rattle.scope_meaning.specs.Constants.{Read, ReadSelect, node, either_wrong, meanings, any_wrong, is_number};
ghost use Rattle.elab_constants.specs.Faults.{first_wrong};
ghost use Rattle.elab_constants.specs.Reads.{Reads, Gathers, Gives, Tells, IsJoined, IsCount, count_wrong};

use crate::binary::{binary, choose};
use crate::both::both;
use crate::fault::{ConstantFault, earlier};
use crate::joined::{Joined, count_of, repeated, with};
use crate::names::Names;
use crate::sized::SizedTerm;
use crate::unary::{call, number, unary};
use bit_values::Bits;
use std::alloc::Global;
use vlog_tree::{BinaryOp, SystemCall, UnaryOp};

/// An expression with its size and sign, or the first thing that is wrong in it.
pub(crate) type Reading = Result<SizedTerm, ConstantFault>;

/// What is wrong in a select beside the select itself: nothing, where it has a value.
pub(crate) type Parts = Result<(), ConstantFault>;

/// Whether there are from 1 to 128 bits, and room for the value in them.
fn is_number(width: u8, value: u128) -> bool
    ensures { result ≡ is_number width value }
{
    1 <= width && width <= 128 && fits(width, value)
}

fn fits(width: u8, value: u128) -> bool
    ensures { result ≡ nat_lt value (2 ^ width) }
{
    if width >= 128 {
        return true;
    }
    value < 1u128 << width
}

pub(crate) fn read_number(width: u8, signed: bool, value: u128) -> Reading
    ensures { (env : Environment) (free : ℕ) → Reads (node env (e.Number width signed value free)) result }
{
    if !is_number(width, value) {
        return Err(ConstantFault::WidthPast128);
    }
    Ok(number(Bits::new(width, value), signed))
}

pub(crate) fn read_unary(alloc: Global, op: UnaryOp, of: Reading) -> Reading
    ensures { (env : Environment) (a : Read) → Reads a of → Reads (node env (e.Unary op a)) result }
{
    let of = of?;
    unary(alloc, op, of)
}

pub(crate) fn read_binary(alloc: Global, op: BinaryOp, left: Reading, right: Reading) -> Reading
    ensures { (env : Environment) (a b : Read) → Reads a left → Reads b right → Reads (node env (e.Binary op a b)) result }
{
    let all = both(left, right);
    let (left, right) = all?;
    binary(alloc, op, left, right)
}

pub(crate) fn read_choice(test: Reading, yes: Reading, no: Reading) -> Reading
    ensures { (env : Environment) (t a b : Read) → Reads t test → Reads a yes → Reads b no → Reads (node env (e.Choose t a b)) result }
{
    let arms = both(yes, no);
    let all = both(test, arms);
    match all {
        Ok((test, arms)) => {
            let (yes, no) = arms;
            Ok(choose(test, yes, no))
        }
        Err(fault) => Err(fault),
    }
}

pub(crate) fn read_call(name: SystemCall, of: Reading) -> Reading
    ensures { (env : Environment) (a : Read) → Reads a of → Reads (node env (e.Call name a)) result }
{
    Ok(call(name, of?))
}

pub(crate) fn read_name<N: Names>(names: &N, name: &[u8]) -> Reading
    ensures { Reads (node (N.environment names.now) (e.Name name.now)) result }
{
    match names.constant(name) {
        Some(found) => Ok(number(found.value, found.signed)),
        None => Err(ConstantFault::NotConstant),
    }
}

/// What is wrong in an expression of a select.
pub(crate) fn tell_one(of: Reading) -> Parts
    ensures { (a : Read) → Reads a of → Tells a.wrong result }
{
    let _ = of?;
    Ok(())
}

pub(crate) fn tell_two(one: Reading, other: Reading) -> Parts
    ensures { (a b : Read) → Reads a one → Reads b other → Tells (either_wrong a.wrong b.wrong) result }
{
    let _ = both(one, other)?;
    Ok(())
}

/// No constant has a part of it taken.
pub(crate) fn read_part_of(base: Reading, select: Parts) -> Reading
    ensures { (env : Environment) (a : Read) (s : ReadSelect) → Reads a base → Tells s.wrong select → Reads (node env (e.Select a s)) result }
{
    match both(base, select) {
        Ok(_) => Err(ConstantFault::BadSelect),
        Err(fault) => Err(earlier(fault, ConstantFault::BadSelect)),
    }
}

/// The parts of a concatenation so far, with one more.
pub(crate) fn gather(
    so_far: Result<Joined, ConstantFault>,
    part: Reading,
) -> Result<Joined, ConstantFault>
    ensures { (rs : List Read) (r : Read) → Gathers rs so_far → Reads r part → Gathers (rs ++ r ∷ []) result }
{
    let all = both(so_far, part);
    match all {
        Ok((joined, part)) => Ok(with(joined, &part)),
        Err(fault) => Err(fault),
    }
}

pub(crate) fn read_join(parts: Result<Joined, ConstantFault>) -> Reading
    ensures { (env : Environment) (rs : List Read) → Gathers rs parts → Reads (node env (e.Join rs)) result }
{
    match parts? {
        Joined::Value(all) => Ok(number(all, false)),
        _ => Err(ConstantFault::WidthPast128),
    }
}

fn read_count(count: Reading) -> Result<u128, ConstantFault>
    ensures { (r : Read) → Reads r count → Gives (IsCount r.meaning) (count_wrong r) result }
{
    let count = count?;
    match count_of(&count) {
        Some(count) => Ok(count),
        None => Err(ConstantFault::BadSelect),
    }
}

/// Values so many times beside one another.
fn repeat(count: u128, parts: Joined) -> Reading
    ensures { (env : Environment) (r : Read) (rs : List Read) → IsCount r.meaning count → IsJoined (meanings rs) parts
        → first_wrong (either_wrong (count_wrong r) (any_wrong rs)) ≡ None → Reads (node env (e.Repeat r rs)) result }
{
    if count == 0 {
        return Err(ConstantFault::BadSelect);
    }
    let Joined::Value(all) = parts else {
        return Err(ConstantFault::WidthPast128);
    };
    if count > 128 || count * u128::from(all.width) > 128 {
        return Err(ConstantFault::WidthPast128);
    }
    Ok(number(repeated(count as u8, all), false))
}

pub(crate) fn read_repeat(count: Reading, parts: Result<Joined, ConstantFault>) -> Reading
    ensures { (env : Environment) (r : Read) (rs : List Read) → Reads r count → Gathers rs parts → Reads (node env (e.Repeat r rs)) result }
{
    let count = read_count(count);
    let all = both(count, parts);
    match all {
        Ok((count, parts)) => repeat(count, parts),
        Err(fault) => Err(fault),
    }
}
