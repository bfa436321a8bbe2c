ghost use Rattle.std.specs.Prelude.{◌≡◌, Some, None, not, map, if◌then◌else◌, IfOk};
ghost use Rattle.scope_meaning.specs.Declared.{is_in};
ghost use Rattle.scope_meaning.specs.Scope.{Frame};
ghost use Rattle.scope_meaning.specs.BlockNames as spec;
ghost use Rattle.elab_names.specs.Frames.{IsFrame};

use cov_types::{ByteText, NoMemory};
use elab_names::ScopeNames;
use elab_texts::genblk;
use std::alloc::Global;
use vlog_tree::NamePlace;

/// The name of an unnamed block with so many zeros, unless the scope declares it.
fn free_name(
    alloc: Global,
    scope: &ScopeNames,
    construct: u32,
    zeros: usize,
) -> Result<Option<ByteText>, NoMemory>
    ensures { (f : Frame) → IsFrame f scope.now → IfOk result (λ name.
        name ≡ (if not (is_in (spec.genblk construct zeros) (map (λ d. d.name) f.declared)) then Some (spec.genblk construct zeros) else None)) }
{
    let name = genblk(alloc, construct, zeros)?;
    if scope.declares(name.as_slice()) {
        return Ok(None);
    }
    Ok(Some(name))
}

/// The name of an unnamed block: with the fewest zeros with which the scope declares no such name. As many zeros as it
/// declares names are enough.
fn unnamed_block(alloc: Global, scope: &ScopeNames, construct: u32) -> Result<ByteText, NoMemory>
    ensures { (f : Frame) → IsFrame f scope.now → IfOk result (λ text. text ≡ spec.unnamed_block (map (λ d. d.name) f.declared) construct) }
{
    let count = scope.count();
    for zeros in 0..count {
        let name = free_name(alloc, scope, construct, zeros)?;
        match name {
            Some(name) => return Ok(name),
            None => {}
        }
    }
    let last = free_name(alloc, scope, construct, count)?;
    match last {
        Some(name) => Ok(name),
        None => Ok(ByteText::new(alloc)),
    }
}

/// The name of the block that a generate `if` makes, which is construct number `construct` of its scope, from 1.
pub fn block_name(
    alloc: Global,
    scope: &ScopeNames,
    construct: u32,
    name: &Option<NamePlace>,
) -> Result<ByteText, NoMemory>
    ensures { (f : Frame) → IsFrame f scope.now → IfOk result (λ text. text ≡ spec.block_name (map (λ d. d.name) f.declared) construct name.now) }
{
    match name {
        Some(named) => ByteText::from_slice(alloc, named.name.as_slice()),
        None => unnamed_block(alloc, scope, construct),
    }
}
