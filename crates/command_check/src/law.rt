//! Laws of the definitions.

ghost use Rattle.command_check.specs.Laws.{IsDoneUnlessWrong, OneCheck};

use vlog_laws::files_are_exact;
use vlog_lexer::one_reading;

/// A check has one answer at most, but for the place where tokens are outside the grammar.
pub fn check_has_one_answer()
    ensures { OneCheck }
{
    one_reading();
    files_are_exact();
}

/// A check of few enough files that are all held and are designs is done.
pub fn check_is_done_unless_wrong()
    ensures { IsDoneUnlessWrong }
{
    one_reading();
    files_are_exact();
}
