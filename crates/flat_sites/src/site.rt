ghost use Rattle.std.specs.Prelude.{◌≡◌, ℕ, List, IfOk};
ghost use Rattle.vlog_tree.specs.declared.statement.Stmt.{Stmt};
ghost use Rattle.source_meaning.specs.Environment.{Environment, in_pass};
ghost use Rattle.flat_source_meaning.specs.ProcessLoops.{passes};
ghost use Rattle.flat_names.specs.Inside.{environment_by};
ghost use Rattle.flat_passes.specs.Turns.{loop_of};
ghost use Rattle.flat_sites.specs.Seen.{IsSeen};
ghost use Rattle.flat_sites.specs.declared.site.Site as spec;

use cov_types::{NoMemory, Rows};
use elab_types::FlatVar;
use flat_names::{InsideNames, LoopValue};
use flat_passes::{PassHead, Passes, pass_values};
use flat_scopes::{PlaceInScope, SeenScopes};
use scope_table::ScopeTable;
use std::alloc::Global;

/// Where a process stands: a place among the scopes, and the variables with the table of their numbers.
#[derive(Clone, Copy)]
pub struct Site<'a> {
    pub scopes: &'a SeenScopes,
    pub at: PlaceInScope,
    pub vars: &'a [FlatVar],
    pub numbers: &'a ScopeTable<u32>,
}

impl<'a> Site<'a> {
    /// The names there, in the passes of these loops, the outermost first.
    pub fn names(&self, loops: &'a [LoopValue<'a>]) -> InsideNames<'a>
        ensures environment { (env : Environment) → IsSeen self.now loops.now env → environment_by result ≡ env }
        ensures vars { result.vars.now ≡ self.now.vars.now }
    {
        InsideNames::new(self.scopes, self.at, self.vars, self.numbers, loops)
    }
}

/// The loops around, and one more inside them.
pub fn with_loop<'a>(
    alloc: Global,
    loops: &[LoopValue<'a>],
    name: &'a [u8],
    value: u32,
) -> Result<Vec<LoopValue<'a>>, NoMemory>
    ensures { (site : spec.Site) (env : Environment) → IsSeen site loops.now env
        → IfOk result (λ all. IsSeen site all.items (in_pass env name.now value)) }
{
    let mut all = Vec::new(alloc);
    all.extend_from_slice(loops)?;
    all.push(LoopValue { name, value })?;
    Ok(all)
}

/// The values of a loop's variable in its passes.
///
/// A loop whose head is no constant, or that turns too often, is refused before: here it is answered as want of memory.
pub fn values_at<'a>(
    alloc: Global,
    site: &Site<'a>,
    loops: &'a [LoopValue<'a>],
    head: PassHead<'_>,
) -> Result<Rows<u32>, NoMemory>
    ensures { (env : Environment) (step_name : List ℕ) (body : Stmt) → IsSeen site.now loops.now env
        → IfOk result (λ ns. ns ≡ passes env (loop_of head.entry step_name body)) }
{
    let names = site.names(loops);
    let made = pass_values(alloc, &names, head)?;
    match made {
        Passes::Made(values) => Ok(values),
        Passes::TooMany => Err(NoMemory),
        Passes::NotConstant => Err(NoMemory),
    }
}
