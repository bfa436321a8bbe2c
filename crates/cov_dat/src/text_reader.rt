ghost use Rattle.std.specs.Prelude.{◌≡◌, ◌≤◌, ◌<◌, ◌+◌, length, IfOk, IfErr, IfSome, IfNone, IsErrOf, OnErr};
ghost use Rattle.cov_types.specs.Key.{IsKey};
ghost use Rattle.cov_dat.specs.Reading.{nothing_read, only_fault, reading, with_record};

use crate::fault::DataFault;
use crate::line::read_line;
use cov_port::{cut_line, line_bytes};
use std::marker::Model;

/// Reads the records of a data file's text one after the other.
///
/// Contracts see what is left to be read: the records before the first line that is none, and
/// that line's fault. A fault, or the end, is answered again by every later call.
#[derive(Drop)]
pub struct TextReader<'a> {
    rest: &'a [u8],
    // The number of the next line, from 1, and the bytes before it.
    number: u64,
    bytes: u64,
}

impl<'a> Model for TextReader<'a> {
    ghost use Rattle.cov_dat.specs.declared.record_list.RecordList.{RecordList};
    ghost use Rattle.cov_dat.specs.Reading.{reading_from};
    ghost use Rattle.cov_dat.specs.Position.{IsInFile};

    ghost Value = { RecordList };

    ghost view = { λ r. reading_from r.number r.bytes r.rest.now };

    ghost invariant = { λ r. IsInFile r.number r.bytes };
}

impl<'a> TextReader<'a> {
    /// A reader at the beginning of the text.
    pub fn new(text: &'a [u8]) -> TextReader<'a>
        ensures { result ≡ reading text.now }
    {
        TextReader {
            rest: text,
            number: 1,
            bytes: 0,
        }
    }

    /// The next record's key and count, or `None` at the end of the text.
    pub fn next_record(&mut self) -> Result<Option<(&'a [u8], u64)>, DataFault>
        ensures record { IfOk result (λ next. IfSome next (λ r. self.old ≡ with_record r.0.now r.1 self.new)) }
        ensures key { IfOk result (λ next. IfSome next (λ r. IsKey r.0.now)) }
        ensures end { IfOk result (λ next. IfNone next (self.old ≡ nothing_read)) }
        ensures ended { IfOk result (λ next. IfNone next (self.new ≡ nothing_read)) }
        ensures fault { IfErr result (λ fault. self.old ≡ only_fault fault) }
        ensures stays { OnErr result (self.new ≡ self.old) }
        ensures no_failure { IsErrOf result DataFault.Failed → ⊥ }
    {
        'lines: while !self.rest.is_empty() {
            let cut = cut_line(self.rest);
            let bytes = self.bytes + line_bytes(cut.line, cut.ended);
            let said = match read_line(self.number, bytes, cut.line, cut.ended) {
                Ok(said) => said,
                Err(fault) => return Err(fault),
            };
            self.rest = cut.rest;
            self.number += 1;
            self.bytes = bytes;
            if let Some(record) = said {
                return Ok(Some(record));
            }
        }
        if self.number == 1 {
            return Err(DataFault::BadHeader(1));
        }
        Ok(None)
    }
}
