//! Laws of the definitions.

ghost use Rattle.cov_program.specs.Laws.{AnswersAgree, IsDoneUnlessWrong, MergesInAnyOrder, WritingMerges};

use command_check::{check_has_one_answer, check_is_done_unless_wrong};
use cover_answer::{
    cover_has_one_answer, cover_is_done_unless_wrong, writes_in_any_order,
    writing_merges as cover_merges,
};
use order_laws::designs_run_once;
use sim_answer::sim_has_one_answer;
use sim_design_laws::texts_are_told_one_way;

/// Words have one answer at most, but for the place where tokens are outside the grammar.
pub fn answers_agree()
    ensures { AnswersAgree }
{
    check_has_one_answer();
    cover_has_one_answer();
    sim_has_one_answer();
    texts_are_told_one_way();
    designs_run_once();
}

/// A call with which nothing is wrong is done, unless memory is wanted.
pub fn done_unless_wrong()
    ensures { IsDoneUnlessWrong }
{
    check_is_done_unless_wrong();
    cover_is_done_unless_wrong();
    texts_are_told_one_way();
}

/// Words that ask for the merged file alone have the answers of a merge.
pub fn writing_merges()
    ensures { WritingMerges }
{
    cover_merges();
}

/// A merge that is done is done with the same answer where its files are read in another order.
pub fn merges_in_any_order()
    ensures { MergesInAnyOrder }
{
    writes_in_any_order();
}
