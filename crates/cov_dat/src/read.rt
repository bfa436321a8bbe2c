ghost use Rattle.std.specs.Prelude.{◌≡◌, IfOk};
ghost use Rattle.cov_dat.specs.Reading.{reading};

use crate::record_list::{Record, RecordList};
use crate::text_reader::TextReader;
use cov_port::{ByteText, NoMemory, Rows};
use std::alloc::Global;

/// The records of a data file's text, up to the first line that is none.
pub fn records(alloc: Global, text: &[u8]) -> Result<RecordList, NoMemory>
    ensures { IfOk result (λ list. list ≡ reading text.now) }
{
    let mut records = Rows::new(alloc);
    let mut reader = TextReader::new(text);
    'records: loop {
        match reader.next_record() {
            Ok(Some((key, count))) => {
                let key = ByteText::from_slice(alloc, key)?;
                records.push(Record { key, count })?;
            }
            Ok(None) => {
                return Ok(RecordList {
                    records,
                    fault: None,
                });
            }
            Err(fault) => {
                return Ok(RecordList {
                    records,
                    fault: Some(fault),
                });
            }
        }
    }
}
