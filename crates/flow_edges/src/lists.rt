ghost use Rattle.std.specs.Prelude.{◌≡◌, ◌≤◌, IfOk, length};
ghost use Rattle.flow_hubs.specs.Adding.{Adds};
ghost use Rattle.flow_edges.specs.Stretches.{IsAmong};

use crate::stretch::Stretch;
use cov_types::NoMemory;
use flow_hubs::Chains;

/// Puts a number into each row of a stretch.
pub(crate) fn note_all(rows: &mut Chains, among: Stretch, number: u32) -> Result<(), NoMemory>
    requires order { among.from ≤ among.to }
    requires inside { among.to ≤ length rows.old }
    ensures { IfOk result (λ _. Adds rows.old rows.new (λ i x. IsAmong among i × (x ≡ number))) }
{
    for at in among.from..among.to {
        rows.note(at, number)?;
    }
    Ok(())
}
