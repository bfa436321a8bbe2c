ghost use Rattle.std.specs.Prelude.{◌<◌, ◌↔◌, IsTrue, length};
ghost use Rattle.flow_order.specs.Orders.{AreWithin, HasChanged, IsWithin, MaskHasChanged, SameShape, reads_for};

use crate::mask::WordMask;
use crate::order::Order;
use design_state::State;

/// Whether a bit of the mask differs in the two states.
fn mask_has_changed(mask: &WordMask, now: &State, before: &State) -> bool
    requires shapes { SameShape now.now before.now }
    requires within { IsWithin now.now mask.now }
    ensures { IsTrue result ↔ MaskHasChanged mask.now now.now before.now }
{
    for word in mask.word..mask.word_end {
        if (now.read(mask.var, word) ^ before.read(mask.var, word)) & mask.mask != 0 {
            return true;
        }
    }
    false
}

/// Whether a bit that the process reads differs in the two states. It takes no memory.
pub fn active(order: &Order, p: u32, now: &State, before: &State) -> bool
    requires listed { p < length order.now.reads }
    requires shapes { SameShape now.now before.now }
    requires within { AreWithin now.now (reads_for order.now p) }
    ensures { IsTrue result ↔ HasChanged (reads_for order.now p) now.now before.now }
{
    for mask in order.reads[p as usize].as_slice() {
        if mask_has_changed(mask, now, before) {
            return true;
        }
    }
    false
}
