//! One run: the words, the files it finds, and what it leaves.

use crate::escape::escape;
use crate::setup::{Failing, Port, Setup};
use cov_port::{Files, Sink};
use cov_program::Status;
use std::alloc::Global;
use std::fmt::Write;
use std::thread::Threads;

/// A file that a run finds.
#[derive(Debug, Drop)]
pub(crate) struct Held {
    pub(crate) name: String,
    pub(crate) bytes: Vec<u8>,
}

/// The words of a run, the size of pieces, the files it finds, and the names that are looked at afterwards.
#[derive(Clone, Copy)]
pub(crate) struct Case<'a> {
    pub(crate) words: &'a Vec<String>,
    pub(crate) piece: u32,
    pub(crate) held: &'a [Held],
    pub(crate) watched: &'a [String],
}

/// The name of a status.
fn name_of(status: Status) -> &'static str {
    match status {
        Status::Done => "Done",
        Status::BadWords => "BadWords",
        Status::BadDesign => "BadDesign",
        Status::BadStimulus => "BadStimulus",
        Status::BadData => "BadData",
        Status::Fault => "Fault",
        Status::Limit => "Limit",
        Status::NoMemory => "NoMemory",
        Status::Stopped => "Stopped",
    }
}

impl Case<'_> {
    /// Runs it, with a call failing, and tells what is left: the status, and where they aren't empty what was put out, the line, and
    /// the watched files.
    pub(crate) fn told<R: Threads + Sync>(
        &self,
        rt: &R,
        alloc: Global,
        failing: Option<Failing>,
    ) -> anyhow::Result<String> {
        let mut setup = Setup::new(alloc, self.piece, self.held)?;
        if let Some(failing) = failing {
            setup.fail(failing)?;
        }
        let status = setup.run(rt, alloc, self.words);
        let mut told = String::from_str(alloc, name_of(status))?;
        for (title, sink) in [(" out ", &setup.out), (" err ", &setup.err)] {
            if !sink.bytes().is_empty() {
                told.push_str(title)?;
                escape(sink.bytes(), &mut told)?;
            }
        }
        for name in self.watched {
            if let Some(bytes) = setup.files.bytes_of(name.as_str()) {
                write!(told, " {name} ")?;
                escape(bytes, &mut told)?;
            }
        }
        if let Some(failing) = failing {
            if status == Status::Fault && goes_on(&mut setup, self.held, failing.port) {
                told.push_str(" and goes on")?;
            }
        }
        Ok(told)
    }
}

/// Whether a call was made behind the one that failed: the next one fails too, where none was.
fn goes_on(setup: &mut Setup, held: &[Held], port: Port) -> bool {
    match (port, held.first()) {
        (Port::Files, Some(file)) => setup.files.open(file.name.as_str()).is_ok(),
        (Port::Output, _) => setup.out.put(b"x").is_ok(),
        _ => false,
    }
}
