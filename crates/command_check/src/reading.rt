//! The design files, read to their ends.

ghost use Rattle.std.specs.Prelude.{◌≡◌, ◌≤◌, Some, length, map, sum, IfOk, IfErr, OnOk, IfSome};
ghost use Rattle.command_ending.specs.Stops.{Stops};
ghost use Rattle.command_check.specs.CheckAnswer.{AreRead};
ghost use Rattle.command_check.specs.Steps.{design_promise, designs_promise};

use command_ending::{Ending, over_limit, take_input};
use cov_port::{ByteText, Files, LimitName, Rows};
use std::alloc::Global;

/// Reads one file, which may have so many bytes.
fn read_design<F: Files>(
    alloc: Global,
    files: &mut F,
    name: &str,
    room: u64,
) -> Result<ByteText, Ending>
    ensures ok { IfOk result (λ text. IfSome (F.held files.old) (λ held. held name.now ≡ Some text)) }
    ensures short { IfOk result (λ text. length text ≤ room) }
    ensures ok_quiet { OnOk result (F.faults files.new ≡ F.faults files.old) }
    ensures err { IfErr result (Stops (design_promise name.now room) (F.held files.old) (F.faults files.old) (F.faults files.new)) }
    ensures held { F.held files.new ≡ F.held files.old }
{
    match take_input(alloc, files, name, room) {
        Ok(text) => {
            if text.len() as u64 > room {
                return Err(over_limit(alloc, LimitName::DesignBytes));
            }
            Ok(text)
        }
        Err(ending) => Err(ending),
    }
}

/// Reads all files to their ends, in order.
pub(crate) fn read_designs<F: Files>(
    alloc: Global,
    files: &mut F,
    names: &[&str],
) -> Result<Rows<ByteText>, Ending>
    ensures ok { IfOk result (λ texts. IfSome (F.held files.old) (λ held. AreRead held (map (λ name. name.now) names.now) texts)) }
    ensures each { IfOk result (λ texts. length texts ≡ length names.now) }
    ensures short { IfOk result (λ texts. sum (map length texts) ≤ 4194304) }
    ensures ok_quiet { OnOk result (F.faults files.new ≡ F.faults files.old) }
    ensures err { IfErr result (Stops (designs_promise (map (λ name. name.now) names.now)) (F.held files.old) (F.faults files.old) (F.faults files.new)) }
    ensures held { F.held files.new ≡ F.held files.old }
{
    let mut texts = Rows::new(alloc);
    let mut left = LimitName::DesignBytes.most();
    'names: for name in names {
        match read_design(alloc, files, name, left) {
            Ok(text) => {
                left -= text.len() as u64;
                if texts.push(text).is_err() {
                    return Err(Ending::NoMemory);
                }
            }
            Err(ending) => return Err(ending),
        }
    }
    Ok(texts)
}
