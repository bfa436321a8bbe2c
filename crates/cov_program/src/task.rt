//! What words ask for.

ghost use Rattle.std.specs.Prelude.{◌≡◌, ◌≤◌, IfSome, map, string_bytes};
ghost use Rattle.cov_words.specs.SeenCommand.{seen, seen_sim};
ghost use Rattle.cov_program.specs.Tasks.{IsInRange, seen_task};
ghost use Rattle.cov_program.specs.Words as spec;
ghost use Rattle.sim_frame.specs.Asked as asked_for;

use cov_words::{Command, Cover, Names, Sim, count_bits_are_in_range, read_words};
use sim_files::Simulation;

/// What the program does.
#[derive(Drop)]
pub(crate) enum Task<'a> {
    /// A check of these design files.
    Check(Names<'a>),
    /// A `sim` with these options.
    Sim(Sim<'a>),
    /// A `cover` with these options.
    Cover(Cover<'a>),
}

/// What the words ask for, if they ask for anything that is built.
pub(crate) fn task_of(words: &[String]) -> Option<Task<'_>>
    ensures asks { seen_task result ≡ spec.task_of (map string_bytes words.now) }
    ensures range { IfSome result IsInRange }
{
    count_bits_are_in_range();
    match read_words(words) {
        Some(command) => task_for(command),
        None => None,
    }
}

fn task_for(command: Command<'_>) -> Option<Task<'_>>
    ensures { seen_task result ≡ spec.task_for (seen command.entry) }
{
    match command {
        Command::Check(names) => Some(Task::Check(names)),
        Command::Cover(asked) => Some(Task::Cover(asked)),
        Command::Sim(asked) => Some(Task::Sim(asked)),
        Command::Build(_) | Command::SelfTest(_) => None,
    }
}

/// What a `sim` is asked for, with what stands for options that aren't given.
pub(crate) fn asked_of<'a>(asked: &Sim<'a>) -> Simulation<'a>
    requires { (spec.simulation_of (seen_sim asked.now)).count_bits ≤ 64 }
    ensures { asked_for.seen result ≡ spec.simulation_of (seen_sim asked.now) }
{
    Simulation {
        design: asked.design,
        stimulus: asked.stimulus,
        data_name: asked.data_name.unwrap_or("coverage.dat"),
        count_bits: asked.count_bits.unwrap_or(64) as u32,
    }
}
