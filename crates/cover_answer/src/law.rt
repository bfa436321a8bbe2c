//! Laws of the definitions.

ghost use Rattle.cover_answer.specs.Laws.{IsDoneUnlessWrong, OneCover, WritesInAnyOrder, WritingMerges};

use command_cover::merges_in_any_order;
use test_rank::one_ranking;

/// A `cover` has one answer at most.
pub fn cover_has_one_answer()
    ensures { OneCover }
{
    one_ranking();
}

/// A `cover` of few enough files in which nothing is wrong prints and stores all that is asked for.
pub fn cover_is_done_unless_wrong()
    ensures { IsDoneUnlessWrong }
{}

/// A `cover` that stores the merged file and does nothing else is a merge.
pub fn writing_merges()
    ensures { WritingMerges }
{}

/// Such a `cover` that is done is done with the same answer where its files are read in another order.
pub fn writes_in_any_order()
    ensures { WritesInAnyOrder }
{
    merges_in_any_order();
    writing_merges();
}
