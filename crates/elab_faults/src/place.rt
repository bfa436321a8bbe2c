ghost use Rattle.std.specs.Prelude.{◌≡◌};
ghost use Rattle.elab_faults.specs.Judged as spec;

use cov_types::Place;
use elab_ranges::RangeFault;
use elab_types::ElabFault;

/// A fault of the expressions and ranges at a place.
pub fn fault_at(place: Place, fault: RangeFault) -> ElabFault
    ensures { result ≡ spec.fault_at place fault }
{
    match fault {
        RangeFault::NotConstant => ElabFault::NotConstant(place),
        RangeFault::BadSelect => ElabFault::BadSelect(place),
        RangeFault::BadRange => ElabFault::BadRange(place),
        RangeFault::WidthPast128 => ElabFault::WidthPast128(place),
        RangeFault::NoMemory => ElabFault::NoMemory,
    }
}
