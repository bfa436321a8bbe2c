ghost use Rattle.std.specs.Prelude.{◌≡◌, IfOk, IfErr, OnOk, OnErr};
ghost use Rattle.cov_port.specs.Causes.{Both};
ghost use Rattle.cov_port.specs.Files.{Stores, StoresPart, StoresRose};
ghost use Rattle.command_ending.specs.ErrorLines as spec;

use command_ending::{Ending, Status, store_line};
use cov_port::{ByteText, Files, NoMemory};
use std::alloc::Global;
use std::marker::Model;

/// The name of the data file that is to be stored, and what is said where the store fails. Contracts see the name.
#[derive(Drop)]
pub struct DataFile<'a> {
    name: &'a str,
    line: ByteText,
}

impl<'a> Model for DataFile<'a> {
    ghost use Rattle.std.specs.Prelude.{◌≡◌, ℕ, List};
    ghost use Rattle.command_ending.specs.ErrorLines as spec;

    ghost Value = { List ℕ };

    ghost view = { λ file. file.name.now };

    ghost invariant = { λ file. file.line ≡ spec.store_line file.name.now };
}

impl<'a> DataFile<'a> {
    /// Takes memory for all that the store needs.
    pub fn reserve(alloc: Global, name: &'a str) -> Result<DataFile<'a>, NoMemory>
        ensures { IfOk result (λ file. file ≡ name.now) }
    {
        let line = store_line(alloc, name)?;
        Ok(DataFile { name, line })
    }

    /// Stores these bytes at the name. It takes no memory.
    pub fn store<F: Files>(self, files: &mut F, bytes: &[u8]) -> Result<(), Ending>
        ensures stored { OnOk result (Both (Stores self.entry bytes.now) (F.held files.old) (F.held files.new)) }
        ensures ok_quiet { OnOk result (F.faults files.new ≡ F.faults files.old) }
        ensures part { OnErr result (Both (StoresPart self.entry bytes.now) (F.held files.old) (F.held files.new)) }
        ensures rose { OnErr result (StoresRose (F.faults files.old) (F.faults files.new)) }
        ensures line { IfErr result (λ ending. ending ≡ Ending.Refused Status.Fault (spec.store_line self.entry)) }
    {
        match files.store(self.name, bytes) {
            Ok(()) => Ok(()),
            Err(_) => Err(self.failed()),
        }
    }

    /// How a command ends whose store fails.
    fn failed(self) -> Ending
        ensures { result ≡ Ending.Refused Status.Fault (spec.store_line self.entry) }
    {
        let DataFile { line, .. } = self;
        Ending::Refused(Status::Fault, line)
    }
}
