ghost use Rattle.std.specs.Prelude.{◌≡◌, All};
ghost use Rattle.flow_least.specs.Met.{IsMarked};
ghost use Rattle.flow_paths.specs.Walking.{IsNoted};

use flow_least::{least_met, lesser};
use flow_marks::{Marks, Span, Spot};

/// How far a walk over the steps of a process has come.
#[derive(Drop)]
pub(crate) struct Walk {
    /// The bits that the process drives and that aren't surely written yet.
    pub(crate) left: Marks,
    /// No bits, between two calls.
    pub(crate) spare: Marks,
    /// The bits that were surely written.
    pub(crate) trail: Vec<Spot>,
    /// The least variable of which a bit was read while it was left.
    pub(crate) early: Option<u32>,
}

/// Notes the least variable of a bit that is read in these spans and is left.
pub(crate) fn note(walk: &mut Walk, spans: &[Span])
    requires { All (IsMarked walk.old.left.slots) spans.now }
    ensures { IsNoted walk.old walk.new spans.now }
{
    walk.early = lesser(walk.early, least_met(&walk.left, spans));
}
