ghost use Rattle.std.specs.Prelude.{◌≡◌, ◌<◌, IfOk, length};
ghost use Rattle.design_meaning.specs.Orders.{IsOrder};
ghost use Rattle.design_meaning.specs.Valid.{IsValidDesign};
ghost use Rattle.cycle_wakes.specs.Wakes.{AreWakesOf, readers_of, targets_of};

use crate::readers::all_readers;
use crate::sources::all_sources;
use crate::targets::all_targets;
use cov_types::{NoMemory, Rows};
use design_tree::Design;
use flow_uses::all_uses;
use std::alloc::Global;
use std::marker::Model;

/// Which processes of an order read each variable, which variables each process writes, and which variables may change beside
/// the runs of the order.
#[derive(Drop)]
pub struct Wakes {
    readers: Vec<Rows<u32>>,
    targets: Vec<Rows<u32>>,
    sources: Rows<u32>,
}

impl Model for Wakes {
    ghost use Rattle.cycle_wakes.specs.Wakes as seen;

    ghost Value = { seen.Wakes };

    ghost view = { λ w. record { readers = w.readers.items; targets = w.targets.items; sources = w.sources } };
}

impl Wakes {
    /// What wakes the processes of a design in an order of it.
    pub fn new(alloc: Global, design: &Design, order: &[u32]) -> Result<Wakes, NoMemory>
        requires valid { IsValidDesign design.now }
        requires order { IsOrder design.now order.now }
        ensures { IfOk result (λ w. AreWakesOf design.now order.now w) }
    {
        let all = all_uses(alloc, design)?;
        let uses = all.as_slice();
        let vars = design.vars.as_slice();
        let readers = all_readers(alloc, vars, uses, order)?;
        let targets = all_targets(alloc, uses)?;
        let sources = all_sources(alloc, vars, uses, order)?;
        Ok(Wakes {
            readers,
            targets,
            sources,
        })
    }

    /// The places of the processes that read a variable.
    pub(crate) fn readers_of(&self, var: u32) -> &[u32]
        requires { var < length self.now.readers }
        ensures { result.now ≡ readers_of self.now var }
    {
        self.readers[var as usize].as_slice()
    }

    /// The variables that a process writes.
    pub(crate) fn targets_of(&self, p: u32) -> &[u32]
        requires { p < length self.now.targets }
        ensures { result.now ≡ targets_of self.now p }
    {
        self.targets[p as usize].as_slice()
    }

    /// The variables that may change beside the runs of the order.
    pub(crate) fn sources(&self) -> &[u32]
        ensures { result.now ≡ self.now.sources }
    {
        self.sources.as_slice()
    }
}
