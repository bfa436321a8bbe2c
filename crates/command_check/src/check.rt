//! The check of design files.

ghost use Rattle.std.specs.Prelude.{◌≡◌, [], map, IfOk};
ghost use Rattle.command_ending.specs.Ending.{line_at, status_at};
ghost use Rattle.command_ending.specs.Leaves.{Leaves};
ghost use Rattle.command_ending.specs.World.{world};
ghost use Rattle.command_check.specs.CheckAnswer as spec;
ghost use Rattle.command_check.specs.CheckPromise.{check_promise};

use crate::design::count_modules;
use crate::reading::read_designs;
use command_ending::{Ending, Store, append_number, are_too_many, finish, over_limit};
use cov_port::{ByteText, Files, LimitName, NoMemory, Sink};
use std::alloc::Global;
use vlog_lexer::places_from_one;

/// `modules N`, as a line.
fn modules_line(alloc: Global, count: u128) -> Result<ByteText, NoMemory>
    ensures { IfOk result (λ line. line ≡ spec.modules_line count) }
{
    let mut line = ByteText::from_slice(alloc, b"modules ")?;
    append_number(&mut line, count)?;
    line.append(b"\n")?;
    Ok(line)
}

/// A check stores nothing.
fn no_stores(alloc: Global) -> Vec<Store>
    ensures { result.items ≡ [] }
{
    Vec::new(alloc)
}

/// Reads the design files, tests each against tokens and grammar, and prints the number of modules.
pub fn check_files<F: Files, O: Sink>(
    alloc: Global,
    files: &mut F,
    out: &mut O,
    names: &[&str],
) -> Ending
    ensures leaves { Leaves (check_promise (map (λ name. name.now) names.now)) (line_at result)
        (world (F.held files.old) (F.faults files.old) (O.written out.old) (O.faults out.old))
        (world (F.held files.new) (F.faults files.new) (O.written out.new) (O.faults out.new)) (status_at result) }
{
    if are_too_many(names) {
        return over_limit(alloc, LimitName::Files);
    }
    let texts = match read_designs(alloc, files, names) {
        Ok(texts) => texts,
        Err(ending) => return ending,
    };
    places_from_one();
    match count_modules(alloc, names, texts.as_slice()) {
        Ok(count) => match modules_line(alloc, count) {
            Ok(line) => finish(files, out, line.as_slice(), no_stores(alloc)),
            Err(_) => Ending::NoMemory,
        },
        Err(ending) => ending,
    }
}
