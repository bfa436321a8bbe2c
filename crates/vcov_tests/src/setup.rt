//! Files and sinks of one run.

use crate::case::Held;
use cov_port::{MemFiles, MemSink};
use cov_program::{Status, vcov};
use std::alloc::Global;
use std::thread::Threads;

/// What a run calls.
#[derive(Clone, Copy)]
pub(crate) enum Port {
    Files,
    Output,
    Lines,
}

/// The so manieth call on a port, which fails.
#[derive(Clone, Copy)]
pub(crate) struct Failing {
    pub(crate) port: Port,
    pub(crate) call: u64,
}

/// Files and sinks of one run.
#[derive(Drop)]
pub(crate) struct Setup {
    pub(crate) files: MemFiles,
    pub(crate) out: MemSink,
    pub(crate) err: MemSink,
}

impl Setup {
    /// Ample room, with pieces of this many bytes, at least 1.
    pub(crate) fn new(alloc: Global, piece: u32, held: &[Held]) -> anyhow::Result<Setup> {
        let piece = piece.max(1);
        let mut files = MemFiles::new(alloc, piece);
        for file in held {
            files.add_file(file.name.as_str(), file.bytes.as_slice())?;
        }
        files.room(8, 65_536)?;
        let mut out = MemSink::new(alloc, piece);
        out.room(4096)?;
        let mut err = MemSink::new(alloc, piece);
        err.room(4096)?;
        Ok(Setup { files, out, err })
    }

    /// Makes a call fail, and the one behind it on the same port.
    pub(crate) fn fail(&mut self, failing: Failing) -> anyhow::Result<()> {
        let Failing { port, call } = failing;
        let next = call.saturating_add(1);
        match port {
            Port::Files => {
                self.files.fail_at(call)?;
                self.files.fail_at(next)?;
            }
            Port::Output => {
                self.out.fail_at(call)?;
                self.out.fail_at(next)?;
            }
            Port::Lines => {
                self.err.fail_at(call)?;
                self.err.fail_at(next)?;
            }
        }
        Ok(())
    }

    /// Runs the program.
    pub(crate) fn run<R: Threads + Sync>(
        &mut self,
        rt: &R,
        alloc: Global,
        words: &Vec<String>,
    ) -> Status {
        vcov(
            rt,
            alloc,
            words,
            &mut self.files,
            &mut self.out,
            &mut self.err,
        )
    }
}
