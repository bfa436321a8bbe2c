//! The command.

ghost use Rattle.std.specs.Prelude.{◌≡◌, map, IfSome};
ghost use Rattle.cov_words.specs.SeenCommand.{seen_cover};
ghost use Rattle.command_ending.specs.Ending.{line_at, status_at};
ghost use Rattle.command_ending.specs.Leaves.{Leaves};
ghost use Rattle.command_ending.specs.World.{world};
ghost use Rattle.cover_answer.specs.CoverPromise.{cover_promise};
ghost use Rattle.cover_files.specs.Sparing.{CoverSpares};

use crate::texts::made_texts;
use command_ending::{Ending, are_too_many, finish, over_limit};
use cov_port::{Files, LimitName, Sink};
use cov_words::Cover;
use std::alloc::Global;

/// Does all that a `cover` of these data files is asked for.
///
/// All texts are made before the first byte is put out. The output comes first, and then the stores, in order.
pub fn cover_files<F: Files, O: Sink>(
    alloc: Global,
    files: &mut F,
    out: &mut O,
    asked: &Cover,
    names: &[&str],
) -> Ending
    requires { map (λ name. name.now) names.now ≡ (seen_cover asked.now).files }
    ensures leaves { Leaves (cover_promise (seen_cover asked.now)) (line_at result)
        (world (F.held files.old) (F.faults files.old) (O.written out.old) (O.faults out.old))
        (world (F.held files.new) (F.faults files.new) (O.written out.new) (O.faults out.new)) (status_at result) }

    // Of a data file that is refused at a line no more is taken than the lines before it and one buffer.
    ensures sparing { IfSome (F.held files.old) (CoverSpares (seen_cover asked.now) (status_at result) (F.rest files.new)) }
{
    if are_too_many(names) {
        return over_limit(alloc, LimitName::Files);
    }
    match made_texts(alloc, files, asked, names) {
        Ok((text, stores)) => finish(files, out, text.as_slice(), stores),
        Err(ending) => ending,
    }
}
