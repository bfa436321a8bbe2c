ghost use Rattle.std.specs.Prelude.{◌≡◌};
ghost use Rattle.elab_places.specs.Places as spec;

use cov_types::Place;
use elab_faults::fault_at;
use elab_ranges::RangeFault;
use elab_types::ElabFault;

/// What was found at a place, its fault with the place.
pub(crate) fn at_place<T: Drop>(place: Place, found: Result<T, RangeFault>) -> Result<T, ElabFault>
    ensures { result ≡ spec.at_place place found }
{
    match found {
        Ok(found) => Ok(found),
        Err(fault) => Err(fault_at(place, fault)),
    }
}
