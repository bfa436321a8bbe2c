//! Designs as text.

ghost use Rattle.std.specs.Prelude.{◌≤◌, ℕ, IfErr, IfOk, List, length};
ghost use Rattle.cov_types.specs.Limits.{most};
ghost use Rattle.cov_types.specs.declared.limit.LimitName.TheVariants.{CvdBytes};
ghost use Rattle.cvd_text.specs.Spelling.{Cvd, spelling};
ghost use Rattle.cvd_write.specs.Writing.{Refuses};
ghost use Rattle.design_meaning.specs.Valid.{IsValid};
ghost use Rattle.cvd_file.specs.Faults.{IsEncodeFault};

use crate::fault::CvdFault;
use cov_types::ByteText;
use cvd_write::WriteFault;
use design_tree::Instrumented;
use std::alloc::Global;

/// The text of a valid design. `Limit` comes exactly where it has more bytes than a design file may have.
pub fn encode(alloc: Global, design: &Instrumented) -> Result<ByteText, CvdFault>
    requires valid { IsValid design.now }
    ensures spells { IfOk result (λ text. Cvd design.now text) }
    ensures short { IfOk result (λ text. length text ≤ most CvdBytes) }
    ensures refuses { IfErr result (λ fault. IsEncodeFault fault (spelling design.now)) }
{
    match cvd_write::encode(alloc, design) {
        Ok(text) => Ok(text),
        Err(fault) => Err(written(fault)),
    }
}

/// The fault of what wasn't written.
fn written(fault: WriteFault) -> CvdFault
    ensures { (text : List ℕ) → Refuses fault text → IsEncodeFault result text }
{
    match fault {
        WriteFault::NoMemory => CvdFault::NoMemory,
        WriteFault::Limit(name) => CvdFault::Limit(name),
    }
}
