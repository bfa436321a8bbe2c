//! Output and stores, which come last.

ghost use Rattle.std.specs.Prelude.{◌≡◌, ◌<◌, [], length, slice_index_or, string_bytes, IfOk, IfErr, OnOk, OnErr};
ghost use Rattle.cov_port.specs.Causes.{Both};
ghost use Rattle.cov_port.specs.Files.{StoresRose};
ghost use Rattle.command_ending.specs.ErrorLines as spec;
ghost use Rattle.command_ending.specs.Finish.{IsFinish};
ghost use Rattle.command_ending.specs.World.{StoresAll, StoresFront, world};

use crate::ending::Ending;
use crate::lines::store_line;
use crate::status::Status;
use cov_port::{ByteText, Files, NoMemory, Sink, put_all};
use std::alloc::Global;
use std::marker::Model;

/// A file that is to be stored. Contracts see its name and its bytes.
#[derive(Drop)]
pub struct Store {
    name: String,
    bytes: ByteText,
    // What is said where the store fails.
    line: ByteText,
}

impl Model for Store {
    ghost use Rattle.std.specs.Prelude.{◌≡◌, List, ℕ, string_bytes};
    ghost use Rattle.command_ending.specs.ErrorLines as spec;

    ghost Value = { List ℕ × List ℕ };

    ghost view = { λ store. (string_bytes store.name, store.bytes) };

    ghost invariant = { λ store. store.line ≡ spec.store_line (string_bytes store.name) };
}

impl Store {
    /// These bytes, to be stored at the name.
    pub fn new(alloc: Global, name: &str, bytes: ByteText) -> Result<Store, NoMemory>
        ensures { IfOk result (λ store. store ≡ (name.now, bytes)) }
    {
        let line = store_line(alloc, name)?;
        let name = String::from_str(alloc, name)?;
        Ok(Store { name, bytes, line })
    }

    fn name(&self) -> &str
        ensures { result.now ≡ self.now.0 }
    {
        self.name.as_str()
    }

    fn bytes(&self) -> &[u8]
        ensures { result.now ≡ self.now.1 }
    {
        self.bytes.as_slice()
    }

    /// What is said where the store fails.
    fn into_line(self) -> ByteText
        ensures { result ≡ spec.store_line self.0 }
    {
        let Store { line, .. } = self;
        line
    }
}

/// Puts the output, and then makes the stores, in order. The first call that fails is the last one.
pub fn finish<F: Files, O: Sink>(
    files: &mut F,
    out: &mut O,
    text: &[u8],
    stores: Vec<Store>,
) -> Ending
    ensures { IsFinish text.now stores.items
        (world (F.held files.old) (F.faults files.old) (O.written out.old) (O.faults out.old))
        (world (F.held files.new) (F.faults files.new) (O.written out.new) (O.faults out.new)) result }
{
    match put_all(out, text) {
        Ok(()) => match store_each(files, stores.as_slice()) {
            Ok(()) => Ending::Done,
            Err(at) => Ending::Refused(Status::Fault, line_at(stores, at)),
        },
        Err(_) => Ending::OutputFailed,
    }
}

/// The line of one of the stores.
fn line_at(stores: Vec<Store>, at: usize) -> ByteText
    requires { at < length stores.items }
    ensures { result ≡ spec.store_line (slice_index_or stores.items at ([], [])).0 }
{
    let mut stores = stores;
    stores.swap_remove(at).into_line()
}

/// Makes the stores in order, and tells the number of the one that fails, from 0.
fn store_each<F: Files>(files: &mut F, stores: &[Store]) -> Result<(), usize>
    ensures ok { OnOk result (Both (StoresAll stores.now) (F.held files.old) (F.held files.new)) }
    ensures ok_quiet { OnOk result (F.faults files.new ≡ F.faults files.old) }
    ensures within { IfErr result (λ at. at < length stores.now) }
    ensures rose { OnErr result (StoresRose (F.faults files.old) (F.faults files.new)) }
    ensures part { IfErr result (λ at. Both (StoresFront (slice_index_or stores.now at ([], [])).0 stores.now) (F.held files.old) (F.held files.new)) }
{
    'stores: for number in 0..stores.len() {
        let store = &stores[number];
        match files.store(store.name(), store.bytes()) {
            Ok(()) => {}
            Err(_) => return Err(number),
        }
    }
    Ok(())
}
