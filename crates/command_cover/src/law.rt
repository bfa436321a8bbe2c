//! Laws of the definitions.

ghost use Rattle.command_cover.specs.Laws.{IsDoneUnlessWrong, MergesInAnyOrder, OneMerge};

use cov_dat::{files_in_any_order, limits_in_any_order, limits_stay};

/// A merge has one answer at most.
pub fn merge_has_one_answer()
    ensures { OneMerge }
{}

/// A merge of few enough files in which there is no reason to stop is done.
pub fn merge_is_done_unless_wrong()
    ensures { IsDoneUnlessWrong }
{}

/// A merge that is done is done with the same answer where its files are read in another order.
pub fn merges_in_any_order()
    ensures { MergesInAnyOrder }
{
    files_in_any_order();
    limits_in_any_order();
    limits_stay();
}
