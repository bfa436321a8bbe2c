ghost use Rattle.std.specs.Prelude.{◌≡◌, IfOk};
ghost use Rattle.std.specs.List.{list_any};
ghost use Rattle.scope_meaning.specs.Visits.{Visits};
ghost use Rattle.flat_spots.specs.Spots.{AreSpotsOf};
ghost use Rattle.flat_clocks.specs.Handings as spec;

use crate::handing::handings;
use cov_types::{ByteText, NoMemory};
use flat_joins::is_input;
use flat_reach::reached;
use flat_scopes::SeenScopes;
use flat_spots::Spot;
use scope_table::ScopeTable;
use std::alloc::Global;

/// Whether a spot is the input of the top that has the clock's name.
fn is_top_clock(spot: &Spot<'_>, clock: &[u8]) -> bool
    ensures { result ≡ spec.is_top_clock clock.now spot.now }
{
    match spot {
        Spot::Port { at, port } => {
            at.scope == 0 && is_input(port.kind) && clock == port.name.as_slice()
        }
        Spot::Item { .. } => false,
        Spot::Instance { .. } => false,
    }
}

/// Whether the top has an input of the clock's name.
fn has_top_clock(spots: &[Spot<'_>], clock: &[u8]) -> bool
    ensures { result ≡ list_any (spec.is_top_clock clock.now) spots.now }
{
    for spot in spots {
        if is_top_clock(spot, clock) {
            return true;
        }
    }
    false
}

/// The clock's name, where the top has an input of that name.
fn first_clock(
    alloc: Global,
    spots: &[Spot<'_>],
    clock: &[u8],
) -> Result<Option<ByteText>, NoMemory>
    ensures { IfOk result (λ first. first ≡ spec.first_clock clock.now spots.now) }
{
    if has_top_clock(spots, clock) {
        let name = ByteText::from_slice(alloc, clock)?;
        return Ok(Some(name));
    }
    Ok(None)
}

/// The clock signals of a design, by scope and name: the top's input of the clock's name, and each input that is connected to a clock signal by its name alone.
pub fn clocks(
    alloc: Global,
    scopes: &SeenScopes,
    spots: &[Spot<'_>],
    clock: &[u8],
) -> Result<ScopeTable<()>, NoMemory>
    ensures { IfOk result (λ table. (vs : Visits) → AreSpotsOf scopes.now.scopes.items vs spots.now → spec.AreClocks vs clock.now table) }
{
    let first = first_clock(alloc, spots, clock)?;
    let all = handings(alloc, scopes, spots)?;
    reached(alloc, &first, all.as_slice())
}
