//! Laws of texts: a call of these functions does nothing, and its contract is the law.

ghost use Rattle.cvd_file.specs.Laws.{FlowsOrTold, NoneUntold};

use order_laws::designs_flow_or_have_faults;

/// A design's text has a flow fault where the design doesn't flow; and a text that is no flowing design's has a flaw.
pub fn no_text_is_left_untold()
    ensures flows { FlowsOrTold }
    ensures told { NoneUntold }
{
    designs_flow_or_have_faults();
}
