ghost use Rattle.std.specs.Prelude.{◌≡◌, ◌≤◌, ◌<◌, ◌+◌, true, false, IfOk, IfSome, OnOk, IsErrOf, length, take, vec_len};
ghost use Rattle.cov_port.specs.Files.{lacks, ReadsRose};
ghost use Rattle.cov_port.specs.Taking.{IsFrontOf, CannotOpen, TakesPart};

use crate::files::Files;
use cov_types::ByteText;
use std::alloc::{AllocError, Global};
use thiserror::Error;

/// Why a file could not be taken.
#[derive(Clone, Copy, Debug, PartialEq, Eq, Error)]
pub enum TakeFault {
    /// It could not be opened, or told files lack it.
    #[error("OpenFailed")]
    OpenFailed,
    /// A read of it failed.
    #[error("ReadFailed")]
    ReadFailed,
    /// Memory was wanted and not given.
    #[error("NoMemory")]
    NoMemory,
}

impl From<AllocError> for TakeFault {
    ghost use Rattle.cov_port.specs.declared.take.TakeFault.TheVariants.{NoMemory};

    ghost from_gives = { λ _ fault. fault ≡ NoMemory };

    fn from(_error: AllocError) -> TakeFault {
        TakeFault::NoMemory
    }
}

/// The bytes of a file, or its first `most + 1` bytes where it has more.
///
/// So a caller can tell a file that is over a limit of `most` bytes, and a file that never ends
/// is not read for ever.
pub fn take_file<F: Files>(
    alloc: Global,
    files: &mut F,
    name: &str,
    most: u64,
) -> Result<ByteText, TakeFault>
    ensures ok { IfOk result (λ text. IsFrontOf (F.held files.old) name.now (most + 1) text) }
    ensures bound { IfOk result (λ text. length text ≤ most + 1) }
    ensures held { F.held files.new ≡ F.held files.old }

    // Each fault has its cause in this very call, and nothing else raises a number.
    ensures ok_quiet { OnOk result (F.faults files.new ≡ F.faults files.old) }
    ensures absent { lacks (F.held files.old) name.now ≡ true → IsErrOf result TakeFault.OpenFailed }
    ensures open_failed { IsErrOf result TakeFault.OpenFailed → CannotOpen (lacks (F.held files.old) name.now) (F.faults files.old) (F.faults files.new) }
    ensures read_failed { IsErrOf result TakeFault.ReadFailed → ReadsRose (F.faults files.old) (F.faults files.new) }
    ensures no_memory { IsErrOf result TakeFault.NoMemory → F.faults files.new ≡ F.faults files.old }
{
    match files.open(name) {
        Ok(()) => take_open(alloc, files, most),
        Err(_) => Err(TakeFault::OpenFailed),
    }
}

/// The bytes of the open file that are left, or the first `most + 1` of them.
fn take_open<F: Files>(alloc: Global, files: &mut F, most: u64) -> Result<ByteText, TakeFault>
    ensures ok { IfOk result (λ text. IfSome (F.rest files.old) (λ left. text ≡ take (most + 1) left)) }
    ensures bound { IfOk result (λ text. length text ≤ most + 1) }
    ensures held { F.held files.new ≡ F.held files.old }
    ensures ok_quiet { OnOk result (F.faults files.new ≡ F.faults files.old) }
    ensures was_open { IsErrOf result TakeFault.OpenFailed → ⊥ }
    ensures read_failed { IsErrOf result TakeFault.ReadFailed → ReadsRose (F.faults files.old) (F.faults files.new) }
    ensures no_memory { IsErrOf result TakeFault.NoMemory → F.faults files.new ≡ F.faults files.old }
{
    let mut bytes = Vec::new(alloc);
    let mut piece = [0u8; 65536];
    let mut more = most;
    'pieces: loop {
        let wanted = more.min(65535) as usize + 1;
        let count = read_piece(files, &mut piece[..wanted], &mut bytes)? as u64;
        if count == 0 || count > more {
            return Ok(ByteText::from_vec(bytes));
        }
        more -= count;
    }
}

/// Reads once, and puts what came at the end.
fn read_piece<F: Files>(
    files: &mut F,
    piece: &mut [u8],
    bytes: &mut Vec<u8>,
) -> Result<usize, TakeFault>
    requires { 0 < length piece.old }
    ensures bound { IfOk result (λ count. count ≤ length piece.old) }
    ensures len { IfOk result (λ count. vec_len bytes.new ≡ vec_len bytes.old + count) }
    ensures ok { OnOk result (IfSome (F.rest files.old) (λ left. TakesPart left (F.rest files.new) bytes.old.items bytes.new.items)) }
    ensures held { F.held files.new ≡ F.held files.old }
    ensures ok_quiet { OnOk result (F.faults files.new ≡ F.faults files.old) }
    ensures was_open { IsErrOf result TakeFault.OpenFailed → ⊥ }
    ensures read_failed { IsErrOf result TakeFault.ReadFailed → ReadsRose (F.faults files.old) (F.faults files.new) }
    ensures no_memory { IsErrOf result TakeFault.NoMemory → F.faults files.new ≡ F.faults files.old }
{
    match files.read(piece) {
        Ok(count) => {
            bytes.extend_from_slice(&piece[..count])?;
            Ok(count)
        }
        Err(_) => Err(TakeFault::ReadFailed),
    }
}
