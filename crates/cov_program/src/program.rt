ghost use Rattle.std.specs.Prelude.{◌≡◌, ◌↔◌, ◌≤◌, ℕ, List, None, Some, IfSome, map, string_bytes};
ghost use Rattle.command_check.specs.CheckPromise.{check_promise};
ghost use Rattle.cover_answer.specs.CoverPromise.{cover_promise};
ghost use Rattle.cov_words.specs.SeenCommand.{seen_cover, seen_sim};
ghost use Rattle.sim_answer.specs.SimPromise.{sim_promise};
ghost use Rattle.command_ending.specs.Ending.{line_at, status_at};
ghost use Rattle.command_ending.specs.Leaves.{IsSaid, Leaves};
ghost use Rattle.command_ending.specs.World.{world};
ghost use Rattle.cov_program.specs.Promises.{promise_of};
ghost use Rattle.cov_program.specs.Sparing.{TaskSpares};
ghost use Rattle.cov_program.specs.Words.{covering, simulating, simulation_of, task_of};

use crate::task::{Task, asked_of, task_of};
use command_check::check_files;
use command_ending::{Ending, Status};
use cov_port::{Files, Sink, put_all};
use cov_words::{Cover, Names, Sim};
use cover_files::cover_files;
use sim_files::simulate;
use std::alloc::Global;
use std::thread::Threads;

/// Does what the words ask for, and tells how that ended.
///
/// On every status but `Done` one line is put on `err`; a failed write of it changes no status.
/// The threads of `rt` are for commands that divide their work, which none does yet.
pub fn vcov<R: Threads + Sync, F: Files, O: Sink, E: Sink>(
    rt: &R,
    alloc: Global,
    words: &Vec<String>,
    files: &mut F,
    out: &mut O,
    err: &mut E,
) -> Status
    ensures words { (result ≡ Status.BadWords) ↔ (task_of (map string_bytes words.now.items) ≡ None) }

    // An answer to the words is what is left, or, where a call failed, what stands then; and the line that goes with it.
    ensures outcome { (line : List ℕ)
        × Leaves (promise_of (map string_bytes words.now.items)) line
        (world (F.held files.old) (F.faults files.old) (O.written out.old) (O.faults out.old))
        (world (F.held files.new) (F.faults files.new) (O.written out.new) (O.faults out.new)) result
        × IsSaid line (E.faults err.old) (E.faults err.new) (E.written err.old) (E.written err.new) }

    // Of a data file or a stimulus that is refused at a line no more is taken than the lines before it and one buffer.
    ensures sparing { IfSome (F.held files.old) (TaskSpares (task_of (map string_bytes words.now.items)) result (F.rest files.new)) }
{
    let _rt = rt;
    let ending = run(alloc, words.as_slice(), files, out);
    let _ = put_all(err, ending.line());
    ending.status()
}

/// Does what the words ask for.
fn run<F: Files, O: Sink>(alloc: Global, words: &[String], files: &mut F, out: &mut O) -> Ending
    ensures words { (status_at result ≡ Status.BadWords) ↔ (task_of (map string_bytes words.now) ≡ None) }
    ensures leaves { Leaves (promise_of (map string_bytes words.now)) (line_at result)
        (world (F.held files.old) (F.faults files.old) (O.written out.old) (O.faults out.old))
        (world (F.held files.new) (F.faults files.new) (O.written out.new) (O.faults out.new)) (status_at result) }
    ensures sparing { IfSome (F.held files.old) (TaskSpares (task_of (map string_bytes words.now)) (status_at result) (F.rest files.new)) }
{
    match task_of(words) {
        Some(Task::Check(names)) => run_check(alloc, files, out, &names),
        Some(Task::Sim(asked)) => run_sim(alloc, files, out, &asked),
        Some(Task::Cover(asked)) => run_cover(alloc, files, out, &asked),
        None => Ending::BadWords,
    }
}

fn run_check<F: Files, O: Sink>(
    alloc: Global,
    files: &mut F,
    out: &mut O,
    names: &Names<'_>,
) -> Ending
    ensures leaves { Leaves (check_promise names.now) (line_at result)
        (world (F.held files.old) (F.faults files.old) (O.written out.old) (O.faults out.old))
        (world (F.held files.new) (F.faults files.new) (O.written out.new) (O.faults out.new)) (status_at result) }
    ensures words { status_at result ≡ Status.BadWords → ⊥ }
{
    match names.collect(alloc) {
        Ok(names) => check_files(alloc, files, out, names.as_slice()),
        Err(_) => Ending::NoMemory,
    }
}

fn run_sim<F: Files, O: Sink>(alloc: Global, files: &mut F, out: &mut O, asked: &Sim<'_>) -> Ending
    requires { (simulation_of (seen_sim asked.now)).count_bits ≤ 64 }
    ensures leaves { Leaves (sim_promise (simulation_of (seen_sim asked.now))) (line_at result)
        (world (F.held files.old) (F.faults files.old) (O.written out.old) (O.faults out.old))
        (world (F.held files.new) (F.faults files.new) (O.written out.new) (O.faults out.new)) (status_at result) }
    ensures sparing { IfSome (F.held files.old) (TaskSpares (Some (simulating (simulation_of (seen_sim asked.now)))) (status_at result) (F.rest files.new)) }
    ensures words { status_at result ≡ Status.BadWords → ⊥ }
{
    let simulation = asked_of(asked);
    simulate(alloc, files, out, &simulation)
}

fn run_cover<F: Files, O: Sink>(
    alloc: Global,
    files: &mut F,
    out: &mut O,
    asked: &Cover<'_>,
) -> Ending
    ensures leaves { Leaves (cover_promise (seen_cover asked.now)) (line_at result)
        (world (F.held files.old) (F.faults files.old) (O.written out.old) (O.faults out.old))
        (world (F.held files.new) (F.faults files.new) (O.written out.new) (O.faults out.new)) (status_at result) }
    ensures sparing { IfSome (F.held files.old) (TaskSpares (Some (covering (seen_cover asked.now))) (status_at result) (F.rest files.new)) }
    ensures words { status_at result ≡ Status.BadWords → ⊥ }
{
    match asked.files.collect(alloc) {
        Ok(names) => cover_files(alloc, files, out, asked, names.as_slice()),
        Err(_) => Ending::NoMemory,
    }
}
