//! Design files, each tested whole before the next.

ghost use Rattle.std.specs.Prelude.{◌≡◌, ◌^◌, ◌<◌, ◌≤◌, List, [], length, map, sum, IfOk, IfErr, slice_index_or};
ghost use Rattle.vlog_tree.specs.declared.module.SourceFile.{SourceFile};
ghost use Rattle.command_ending.specs.Stops.{IsRefusal};
ghost use Rattle.command_check.specs.CheckAnswer.{AreDesigns, IsDesign, RefusesDesign, RefusesOne, module_count, token_refusal};

use command_ending::{Ending, bad_design, over_limit};
use cov_port::ByteText;
use std::alloc::Global;
use vlog_lexer::{LexFault, tokens};
use vlog_parser::{SyntaxFault, parse};

/// A design is refused for a fault of its tokens.
fn bad_tokens(alloc: Global, name: &str, fault: LexFault) -> Ending
    ensures { IsRefusal (λ answer. answer ≡ token_refusal name.now fault) result }
{
    match fault {
        LexFault::BadByte(place) => bad_design(alloc, name, place, b"BadByte"),
        LexFault::BadNumber(place) => bad_design(alloc, name, place, b"BadNumber"),
        LexFault::NumberTooWide(place) => bad_design(alloc, name, place, b"NumberTooWide"),
        LexFault::OpenComment(place) => bad_design(alloc, name, place, b"OpenComment"),
        LexFault::OpenString(place) => bad_design(alloc, name, place, b"OpenString"),
        LexFault::Directive(place) => bad_design(alloc, name, place, b"Directive"),
        LexFault::ReservedName(place) => bad_design(alloc, name, place, b"ReservedName"),
        LexFault::Limit(limit) => over_limit(alloc, limit),
        LexFault::NoMemory => Ending::NoMemory,
    }
}

/// The number of modules of the file with this number and name.
fn modules_of(alloc: Global, name: &str, text: &[u8], number: u32) -> Result<usize, Ending>
    requires { length text.now < 2 ^ 32 }
    ensures ok { IfOk result (λ count. (file : SourceFile) × IsDesign number text.now file × (count ≡ length file.modules)) }
    ensures err { IfErr result (IsRefusal (RefusesDesign number name.now text.now)) }
{
    let found = match tokens(alloc, text, number) {
        Ok(found) => found,
        Err(fault) => return Err(bad_tokens(alloc, name, fault)),
    };
    match parse(alloc, &found) {
        Ok(file) => Ok(file.modules.len()),
        Err(SyntaxFault::Syntax(place)) => Err(bad_design(alloc, name, place, b"Syntax")),
        Err(SyntaxFault::NoMemory) => Err(Ending::NoMemory),
    }
}

/// The number of modules of the file with this number.
fn modules_at(
    alloc: Global,
    names: &[&str],
    texts: &[ByteText],
    number: usize,
) -> Result<usize, Ending>
    requires each { length texts.now ≡ length names.now }
    requires few { length names.now ≤ 4096 }
    requires short { sum (map length texts.now) ≤ 4194304 }
    requires within { number < length texts.now }
    ensures ok { IfOk result (λ count. (file : SourceFile) × IsDesign number (slice_index_or texts.now number []) file × (count ≡ length file.modules)) }
    ensures err { IfErr result (IsRefusal
        (RefusesDesign number (slice_index_or (map (λ name. name.now) names.now) number []) (slice_index_or texts.now number []))) }
{
    modules_of(
        alloc,
        names[number],
        texts[number].as_slice(),
        number as u32,
    )
}

/// The number of modules of all files, each of which is tested whole before the next.
///
/// It is wider than the number of each, so that no sum is too great.
pub(crate) fn count_modules(
    alloc: Global,
    names: &[&str],
    texts: &[ByteText],
) -> Result<u128, Ending>
    requires each { length texts.now ≡ length names.now }
    requires few { length names.now ≤ 4096 }
    requires short { sum (map length texts.now) ≤ 4194304 }
    ensures ok { IfOk result (λ count. (files : List SourceFile) × AreDesigns 0 texts.now files × (count ≡ module_count files)) }
    ensures err { IfErr result (IsRefusal (RefusesOne (map (λ name. name.now) names.now) texts.now)) }
{
    let mut count = 0;
    'files: for number in 0..texts.len() {
        match modules_at(alloc, names, texts, number) {
            Ok(modules) => count += modules as u128,
            Err(ending) => return Err(ending),
        }
    }
    Ok(count)
}
