ghost use Rattle.std.specs.Prelude.{◌≡◌, ◌⊎◌, IfErr};

use crate::program::vcov;
use command_ending::{Ending, Status};
use cov_port::{RealFiles, RealSink, put_all};
use std::alloc::Global;
use std::env::Env;
use std::io::{ErrorKind, Write};
use std::thread::Threads;
use std::{env, rt};

/// Runs the program on the words of the command line, the files of the system and these two streams.
///
/// A command line that isn't UTF-8 is one of bad words. What it leaves is what `vcov` leaves; files and
/// streams of the system tell no contents, so nothing more is claimed of them.
pub fn run_program<R, O, E>(rt: &R, out: O, err: E) -> Status
where
    R: Threads + Sync + Env + AllocGlobal + rt::Files,
    O: Write + Drop,
    E: Write + Drop,
{
    let alloc = rt.alloc();
    let mut err = RealSink::new(err);
    match given_words(rt, alloc) {
        Ok(words) => {
            let mut files = RealFiles::new(rt);
            let mut out = RealSink::new(out);
            vcov(rt, alloc, &words, &mut files, &mut out, &mut err)
        }
        Err(ending) => {
            let _ = put_all(&mut err, ending.line());
            ending.status()
        }
    }
}

/// The words after the program's name. Words that aren't UTF-8 are bad ones.
fn given_words(rt: &(impl Env + AllocGlobal), alloc: Global) -> Result<Vec<String>, Ending>
    ensures { IfErr result (λ ending. (ending ≡ Ending.NoMemory) ⊎ (ending ≡ Ending.BadWords)) }
{
    let given = match env::args(rt) {
        Ok(given) => given,
        Err(error) if error.kind() == ErrorKind::OutOfMemory => return Err(Ending::NoMemory),
        Err(_) => return Err(Ending::BadWords),
    };
    let mut words = Vec::new(alloc);
    for word in given.skip(1) {
        if words.push(word).is_err() {
            return Err(Ending::NoMemory);
        }
    }
    Ok(words)
}
