//! A text read as tokens.

ghost use Rattle.std.specs.Prelude.{◌≡◌, ◌+◌, ◌<◌, ◌≤◌, ◌^◌, ◌++◌, length, IfErr, IfOk, OnOk, Result};
ghost use Rattle.vlog_lexer.specs.LimitsKept.{AreCounts};
ghost use Rattle.vlog_lexer.specs.Adding.{Refuses, StaysWithin};
ghost use Rattle.vlog_lexer.specs.Reading as spec;
ghost use Rattle.vlog_lexer.specs.Reading.{Answers, IsReadingOf, IsUnlessNoMemory};
ghost use Rattle.vlog_lexer.specs.declared.fault.LexFault.{LexFault};
ghost use Rattle.vlog_tokens.specs.declared.token_list.TokenList.{TokenList};

use crate::fault::{LexFault, fault_at};
use crate::front::front_of;
use crate::limits::Counts;
use crate::piece::{Meaning, Piece, Stop};
use crate::position::Position;
use cov_types::{Place, Pragma, Rows};
use std::alloc::Global;
use vlog_tokens::{Token, TokenList};

/// Adds what a piece at this place means, and gives the counts with it.
fn add(
    found: &mut TokenList,
    counts: Counts,
    place: Place,
    what: Meaning,
) -> Result<Counts, LexFault>
    requires counts { AreCounts (spec.latest found.old.tokens) counts }
    requires nesting { counts.nesting + 1 < 2 ^ 64 }
    requires braces { counts.braces + 1 < 2 ^ 64 }
    requires operators { counts.operators + 1 < 2 ^ 64 }
    requires branches { counts.branches + 1 < 2 ^ 64 }
    ensures tokens { OnOk result (found.new.tokens ≡ found.old.tokens ++ spec.token_of place what) }
    ensures pragmas { OnOk result (found.new.pragmas ≡ found.old.pragmas ++ spec.pragma_of place what) }
    ensures counts { IfOk result (λ after. AreCounts (spec.latest found.new.tokens) after) }
    ensures within { OnOk result (StaysWithin (spec.latest found.old.tokens) what) }
    ensures refused { IfErr result (λ fault. Refuses (spec.latest found.old.tokens) what fault) }
    ensures nesting { IfOk result (λ after. after.nesting ≤ counts.nesting + 1) }
    ensures braces { IfOk result (λ after. after.braces ≤ counts.braces + 1) }
    ensures operators { IfOk result (λ after. after.operators ≤ counts.operators + 1) }
    ensures branches { IfOk result (λ after. after.branches ≤ counts.branches + 1) }
{
    match what {
        Meaning::Blank => Ok(counts),
        Meaning::Comment(what) => match found.pragmas.push(Pragma { place, what }) {
            Err(_) => Err(LexFault::NoMemory),
            Ok(()) => Ok(counts),
        },
        Meaning::Token(what) => {
            let after = counts.with_token(&what);
            if let Some(name) = after.limit_passed(&what) {
                return Err(LexFault::Limit(name));
            }
            match found.tokens.push(Token { place, what }) {
                Err(_) => Err(LexFault::NoMemory),
                Ok(()) => Ok(after),
            }
        }
    }
}

/// The tokens and coverage comments of a text, or its first fault.
fn read(alloc: Global, text: &[u8], file: u32) -> Result<TokenList, LexFault>
    requires { length text.now < 2 ^ 32 }
    ensures { Answers file text.now result }
{
    let mut found = TokenList {
        tokens: Rows::new(alloc),
        pragmas: Rows::new(alloc),
    };
    let mut position = Position::start();
    let mut counts = Counts::none();
    let mut at = 0;
    while at < text.len() {
        let rest = &text[at..];
        match front_of(alloc, rest) {
            Err(stop) => match stop {
                Stop::NoMemory => return Err(LexFault::NoMemory),
                Stop::Refused(refusal) => {
                    let here = position.after(&rest[..refusal.offset]);
                    return Err(fault_at(refusal.flaw, here.place(file)));
                }
            },
            Ok(Piece { what, len }) => {
                match add(&mut found, counts, position.place(file), what) {
                    Err(fault) => return Err(fault),
                    Ok(after) => counts = after,
                }
                position = position.after(&rest[..len]);
                at += len;
            }
        }
    }
    Ok(found)
}

/// The tokens and coverage comments of the text of a file, or its first fault.
///
/// The text is a sequence of pieces: white space, comments, skipped lines and tokens, each the
/// longest that begins at its place. The file is the number that places have.
pub fn tokens(alloc: Global, text: &[u8], file: u32) -> Result<TokenList, LexFault>
    requires short { length text.now < 2 ^ 32 }
    // What is answered is the text's reading.
    ensures exact { Answers file text.now result }
    // Whatever reading the text has is answered.
    ensures only { (other : Result TokenList LexFault) → IsReadingOf file text.now other → IsUnlessNoMemory result other }
{
    read(alloc, text, file)
}
