ghost use Rattle.std.specs.Prelude.{◌≡◌, None};

use crate::files::{FileFault, Files};
use std::fs::File;
use std::io::Read;
use std::rt;

/// The files of the system. Contracts learn no contents from it.
///
/// This is a trusted edge: what the system's files hold, and that a store leaves a prefix or what
/// stood there, is up to the system.
#[derive(Drop)]
pub struct RealFiles<'a, R: rt::Files> {
    rt: &'a R,
    open: Option<R::File>,
    opens: u64,
    reads: u64,
    stores: u64,
}

impl<'a, R: rt::Files> RealFiles<'a, R> {
    /// The files of the system that this runtime reaches, with none open.
    pub fn new(rt: &'a R) -> RealFiles<'a, R>
        ensures { ⟦<RealFiles<'a, R> as Files>⟧.faults result ≡ record { opens = 0; reads = 0; stores = 0 } }
    {
        RealFiles {
            rt,
            open: None,
            opens: 0,
            reads: 0,
            stores: 0,
        }
    }
}

impl<R: rt::Files> Files for RealFiles<'_, R> {
    ghost held = { λ _. None };

    ghost rest = { λ _. None };

    ghost faults = { λ files. record { opens = files.opens; reads = files.reads; stores = files.stores } };

    /// Opens a file that stands there. An absent one counts as a failed call.
    fn open(&mut self, name: &str) -> Result<(), FileFault> {
        self.open = None;
        match File::open(self.rt, name) {
            Ok(file) => {
                self.open = Some(file);
                Ok(())
            }
            Err(_) => {
                self.opens = self.opens.saturating_add(1);
                Err(FileFault::Failed)
            }
        }
    }

    /// Reads once from the system.
    fn read(&mut self, buf: &mut [u8]) -> Result<usize, FileFault> {
        match &mut self.open {
            None => Ok(0),
            Some(file) => match file.read(buf) {
                Ok(count) => Ok(count),
                Err(_) => {
                    self.reads = self.reads.saturating_add(1);
                    Err(FileFault::Failed)
                }
            },
        }
    }

    /// Writes the file anew.
    fn store(&mut self, name: &str, bytes: &[u8]) -> Result<(), FileFault> {
        match std::fs::write(self.rt, name, bytes) {
            Ok(()) => Ok(()),
            Err(_) => {
                self.stores = self.stores.saturating_add(1);
                Err(FileFault::Failed)
            }
        }
    }
}
