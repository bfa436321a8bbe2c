ghost use Rattle.std.specs.Prelude.{◌≡◌, ◌∷◌, [], true, IfOk, IfErr, IfSome, IfNone};
ghost use Rattle.stim_lines.specs.Fields.{fields_of, spoken, text_says};
ghost use Rattle.stim_lines.specs.Reading.{is_of_text};
ghost use Rattle.stimulus.specs.Taking.{BeginsRefused};

use cov_port::{cut_line, line_bytes};
use std::marker::Model;
use stim_lines::{StimFault, read_line};

/// Takes the lines of a text that aren't skipped, one after the other.
///
/// Contracts see how many lines it has taken, and what those that are left say.
#[derive(Drop)]
pub(crate) struct TextLines<'a> {
    rest: &'a [u8],
    number: u64,
    bytes: u64,
}

impl<'a> Model for TextLines<'a> {
    ghost use Rattle.std.specs.Prelude.{length};
    ghost use Rattle.stimulus.specs.Lines.{heard};
    ghost use Rattle.stimulus.specs.Taking.{IsInText, TextState};

    ghost Value = { TextState };

    ghost view = { λ r. record { number = r.number; said = heard r.number r.bytes r.rest.now } };

    ghost invariant = { λ r. IsInText r.number (length r.rest.now) r.bytes };
}

impl<'a> TextLines<'a> {
    /// The lines of a text.
    pub(crate) fn new(text: &'a [u8]) -> TextLines<'a>
        ensures { result.said ≡ text_says text.now }
    {
        TextLines {
            rest: text,
            number: 0,
            bytes: 0,
        }
    }

    /// The number of the line that was taken last, from 1.
    pub(crate) fn number(&self) -> u64
        ensures { result ≡ self.now.number }
    {
        self.number
    }

    /// Takes the next line that isn't skipped.
    pub(crate) fn next_spoken(&mut self) -> Result<Option<&'a [u8]>, StimFault>
        ensures spoken { IfOk result (λ next. IfSome next (λ line. self.old.said ≡ spoken self.new.number (fields_of line.now) ∷ self.new.said)) }
        ensures end { IfOk result (λ next. IfNone next (self.old.said ≡ [])) }
        ensures fault { IfErr result (λ flaw. BeginsRefused flaw self.old.said) }
        ensures of_text { IfErr result (λ flaw. is_of_text flaw ≡ true) }
    {
        'lines: while !self.rest.is_empty() {
            let cut = cut_line(self.rest);
            let bytes = self.bytes + line_bytes(cut.line, cut.ended);
            let speaks = match read_line(self.number + 1, bytes, cut.line) {
                Ok(speaks) => speaks,
                Err(fault) => return Err(fault),
            };
            self.rest = cut.rest;
            self.number += 1;
            self.bytes = bytes;
            if speaks {
                return Ok(Some(cut.line));
            }
        }
        Ok(None)
    }
}
