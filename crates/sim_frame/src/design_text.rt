//! The text of the design.

ghost use Rattle.std.specs.Prelude.{◌≡◌, ◌≤◌, Some, length, IfOk, IfErr, IfSome, OnOk};
ghost use Rattle.cov_types.specs.Limits.{most as most_of};
ghost use Rattle.cov_types.specs.declared.limit.LimitName.TheVariants.{CvdBytes};
ghost use Rattle.command_ending.specs.Stops.{Stops};
ghost use Rattle.sim_frame.specs.DesignText.{design_promise};

use command_ending::{Ending, over_limit, take_input};
use cov_port::{ByteText, Files, LimitName};
use std::alloc::Global;

/// The whole text of a design file, within the limit on its bytes.
pub fn take_design<F: Files>(alloc: Global, files: &mut F, name: &str) -> Result<ByteText, Ending>
    ensures ok { IfOk result (λ text. IfSome (F.held files.old) (λ held. held name.now ≡ Some text)) }
    ensures within { IfOk result (λ text. length text ≤ most_of CvdBytes) }
    ensures ok_quiet { OnOk result (F.faults files.new ≡ F.faults files.old) }
    ensures err { IfErr result (Stops (design_promise name.now) (F.held files.old) (F.faults files.old) (F.faults files.new)) }
    ensures held { F.held files.new ≡ F.held files.old }
{
    let most = LimitName::CvdBytes.most();
    match take_input(alloc, files, name, most) {
        Ok(text) if text.len() as u64 > most => Err(over_limit(alloc, LimitName::CvdBytes)),
        Ok(text) => Ok(text),
        Err(ending) => Err(ending),
    }
}
