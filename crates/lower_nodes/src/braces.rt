ghost use Rattle.std.specs.Prelude.{◌≡◌, [], ◌∷◌, ◌++◌, List, IfOk, true};
ghost use Rattle.elab_types.specs.declared.flat_source.FlatVar.{FlatVar};
ghost use Rattle.elab_types.specs.declared.flat_expression.FlatExpr.{FlatExpr};
ghost use Rattle.elab_types.specs.declared.flat_expression.FlatExpr.TheVariants as e;
ghost use Rattle.design_tree.specs.declared.typed.Typed.TheVariants as t;
ghost use Rattle.lower_meaning.specs.SoundExpressions.{has_some};
ghost use Rattle.lower_nodes.specs.Joins as spec;
ghost use Rattle.lower_nodes.specs.Joins.{Gathers};
ghost use Rattle.lower_nodes.specs.Reads.{Lowers};

use crate::by_itself::{Reading, alone};
use crate::fault::ExpressionFault;
use crate::together::{both, kept};
use design_tree::Typed;
use lower_forms::SizedForm;
use sqlite_items::{Boxed, Items};
use std::alloc::{AllocError, Global};

/// The typed forms of parts in braces, and how many bits they have together; 129 stands for any more.
#[derive(Drop)]
pub struct Parts {
    pub typed: Items<Typed>,
    pub size: u16,
}

/// The parts of braces so far, or the first reason for one's having no typed form.
pub type Gathering = Result<Parts, ExpressionFault>;

/// No parts as yet.
pub fn no_parts(alloc: Global) -> Gathering
    ensures { (vars : List FlatVar) → Gathers vars [] result }
{
    Ok(Parts {
        typed: Items::new(alloc),
        size: 0,
    })
}

fn sum(size: u16, more: u8) -> u16
    ensures { result ≡ spec.sum size more }
{
    if size > 128 {
        return 129;
    }
    let all = size + u16::from(more);
    if all > 128 { 129 } else { all }
}

fn with(alloc: Global, so_far: Parts, part: SizedForm) -> Result<Parts, AllocError>
    ensures { IfOk result (λ all. spec.IsWith so_far part all) }
{
    let Parts { mut typed, size } = so_far;
    let size = sum(size, part.size);
    let own = part.own(alloc)?;
    typed.push(own)?;
    Ok(Parts { typed, size })
}

/// The parts so far, with one more.
pub fn gather(alloc: Global, so_far: Gathering, part: Reading) -> Gathering
    ensures { (vars : List FlatVar) (ps : List FlatExpr) (p : FlatExpr) → Gathers vars ps so_far → Lowers vars p part
        → Gathers vars (ps ++ p ∷ []) result }
{
    let all = both(so_far, part);
    match all {
        Ok((so_far, part)) => kept(with(alloc, so_far, part)),
        Err(fault) => Err(fault),
    }
}

fn join(alloc: Global, high: Typed, low: Typed) -> Result<Typed, AllocError>
    ensures { IfOk result (λ a. a ≡ t.Join high low) }
{
    let high = Boxed::new(alloc, high)?;
    let low = Boxed::new(alloc, low)?;
    Ok(Typed::Join { high, low })
}

/// Parts beside one another, the last one lowest.
fn join_onto(alloc: Global, mut before: Items<Typed>, last: Typed) -> Result<Typed, AllocError>
    ensures { IfOk result (λ a. a ≡ spec.joined_onto before last) }
{
    let mut all = last;
    while let Some(next) = before.pop() {
        all = join(alloc, next, all)?;
    }
    Ok(all)
}

/// All parts beside one another: none where there are none, or where they have more than 128 bits.
pub fn joined(alloc: Global, parts: Parts) -> Result<(u8, Typed), ExpressionFault>
    ensures { spec.IsJoining parts result }
{
    let Parts { mut typed, size } = parts;
    if size > 128 || size == 0 {
        return Err(ExpressionFault::WidthPast128);
    }
    let Some(last) = typed.pop() else {
        return Err(ExpressionFault::WidthPast128);
    };
    match join_onto(alloc, typed, last) {
        Ok(all) => Ok((size as u8, all)),
        Err(_) => Err(ExpressionFault::NoMemory),
    }
}

/// All parts beside one another, by themselves.
fn join_all(alloc: Global, parts: Parts) -> Reading
    ensures { spec.IsJoined parts result }
{
    match joined(alloc, parts) {
        Ok((size, all)) => Ok(alone(size, false, all)),
        Err(fault) => Err(fault),
    }
}

/// Parts in braces.
pub fn read_join(alloc: Global, parts: Gathering) -> Reading
    ensures { (vars : List FlatVar) (ps : List FlatExpr) → has_some ps ≡ true → Gathers vars ps parts → Lowers vars (e.Join ps) result }
{
    match parts {
        Ok(parts) => join_all(alloc, parts),
        Err(fault) => Err(fault),
    }
}
