ghost use Rattle.std.specs.Prelude.{◌≡◌, ◌++◌, IfOk, OnOk, map};
ghost use Rattle.cycle_wakes.specs.Targets.{named_by};

use cov_types::{NoMemory, Rows};
use flow_uses::{Span, Uses};
use std::alloc::Global;

/// Puts the variables of spans behind those that are there.
fn put_vars(vars: &mut Rows<u32>, spans: &[Span]) -> Result<(), NoMemory>
    ensures { OnOk result (vars.new ≡ vars.old ++ map (λ s. s.var) spans.now) }
{
    for span in spans {
        vars.push(span.var)?;
    }
    Ok(())
}

/// The variables that a process writes, at once and then later.
fn targets_of(alloc: Global, uses: &Uses) -> Result<Rows<u32>, NoMemory>
    ensures { IfOk result (λ vars. vars ≡ named_by uses.now) }
{
    let mut vars = Rows::new(alloc);
    put_vars(&mut vars, uses.sets.as_slice())?;
    put_vars(&mut vars, uses.defers.as_slice())?;
    Ok(vars)
}

/// The same of each process.
pub(crate) fn all_targets(alloc: Global, uses: &[Uses]) -> Result<Vec<Rows<u32>>, NoMemory>
    ensures { IfOk result (λ targets. targets.items ≡ map named_by uses.now) }
{
    let mut targets = Vec::new(alloc);
    for one in uses {
        targets.push(targets_of(alloc, one)?)?;
    }
    Ok(targets)
}
