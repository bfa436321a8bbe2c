use cov_dat::{DataFault, DataReader, RecordList, RecordStep, records};
use cov_port::{Files, MemFiles, NoMemory};
use std::alloc::Global;
use std::test::Fail;

const HEADER: &[u8] = b"# SystemC::Coverage-3\n";

const RECORD: &[u8] = b"C '\x01a\x02b' 1\n";

/// A small file: skipped lines, and records with and without leading zeros in their counts.
const SMALL: &[u8] =
    b"# SystemC::Coverage-3\n\nC '\x01f\x02a.v\x01l\x02\x37' 007\n# note\nC '\x01f\x02b'c' 12\n\n";

/// Puts so many signs `#` and a line feed at the end.
fn add_comment(text: &mut Vec<u8>, signs: usize) -> Result<(), NoMemory> {
    for _ in 0..signs {
        text.push(b'#')?;
    }
    text.push(b'\n')?;
    Ok(())
}

/// A file cut off behind this many bytes. A record ends at each of its bytes whose number is a multiple of 512.
fn text_of(alloc: Global, length: usize) -> Result<Vec<u8>, NoMemory> {
    let mut unit = Vec::new(alloc);
    add_comment(&mut unit, 500)?;
    unit.extend_from_slice(RECORD)?;
    let mut text = Vec::new(alloc);
    text.extend_from_slice(HEADER)?;
    add_comment(&mut text, 478)?;
    text.extend_from_slice(RECORD)?;
    for _ in 0..length / 512 {
        text.extend_from_slice(unit.as_slice())?;
    }
    text.truncate(length);
    Ok(text)
}

/// Whether the text, read by lines in such pieces, gives these records and this fault, and goes on to give the fault or the end.
fn reads_so(alloc: Global, text: &[u8], list: &RecordList, piece: u32) -> Result<bool, NoMemory> {
    let mut files = MemFiles::new(alloc, piece.max(1));
    files.add_file("data", text)?;
    if files.open("data").is_err() {
        return Ok(false);
    }
    let mut reader = DataReader::new(alloc)?;
    for record in list.records.as_slice() {
        if reader.next_record(&mut files) != Ok(RecordStep::Record) {
            return Ok(false);
        }
        if reader.key() != record.key.as_slice() || reader.count() != record.count {
            return Ok(false);
        }
    }
    let end = match list.fault {
        Some(fault) => Err(fault),
        None => Ok(RecordStep::End),
    };
    let first = reader.next_record(&mut files);
    let again = reader.next_record(&mut files);
    Ok(first == end && again == end && reader.key().is_empty() && reader.count() == 0)
}

/// Whether the text, read by lines in pieces of 1, 7 and 65,536 bytes, gives what is read of it as a whole.
fn reads_alike(alloc: Global, text: &[u8]) -> Result<bool, NoMemory> {
    let list = records(alloc, text)?;
    Ok(
        reads_so(alloc, text, &list, 1)?
            && reads_so(alloc, text, &list, 7)?
            && reads_so(alloc, text, &list, 65_536)?,
    )
}

#[test]
fn lengths_round_a_buffer_read_alike(rt: HostRuntime) -> Result<(), Fail> {
    for start in [65_533, 131_069] {
        for more in 0..7 {
            let text = text_of(rt.alloc(), start + more)?;
            assert!(rt; reads_alike(rt.alloc(), text.as_slice())?);
        }
    }
    Ok(())
}

#[test]
fn long_lines_are_refused(rt: HostRuntime) -> Result<(), Fail> {
    let rows = [
        (HEADER, 65_535, true, None),
        (HEADER, 65_536, true, Some(DataFault::LineTooLong(2))),
        (HEADER, 65_535, false, Some(DataFault::BadRecord(2))),
        (HEADER, 65_536, false, Some(DataFault::LineTooLong(2))),
        (b"".as_slice(), 65_535, true, Some(DataFault::BadHeader(1))),
        (
            b"".as_slice(),
            65_536,
            true,
            Some(DataFault::LineTooLong(1)),
        ),
        (
            b"".as_slice(),
            65_536,
            false,
            Some(DataFault::LineTooLong(1)),
        ),
    ];
    for (before, signs, ended, fault) in &rows {
        let mut text = Vec::new(rt.alloc());
        text.extend_from_slice(before)?;
        add_comment(&mut text, *signs)?;
        if !*ended {
            text.pop();
        }
        let list = records(rt.alloc(), text.as_slice())?;
        assert!(rt; list.fault == *fault);
        assert!(rt; reads_alike(rt.alloc(), text.as_slice())?);
    }
    Ok(())
}

/// The fault of a front of the small file that has its header.
fn fault_of_front(front: &[u8]) -> Option<DataFault> {
    if front.ends_with(b"\n") {
        return None;
    }
    let mut line = 1u64;
    for byte in front {
        if *byte == b'\n' {
            line = line.saturating_add(1);
        }
    }
    Some(DataFault::BadRecord(line))
}

#[test]
fn fronts_are_taken_up_to_a_line_feed(rt: HostRuntime) -> Result<(), Fail> {
    for length in HEADER.len()..SMALL.len() {
        let front = &SMALL[..length];
        let list = records(rt.alloc(), front)?;
        assert!(rt; list.fault == fault_of_front(front));
        assert!(rt; reads_alike(rt.alloc(), front)?);
    }
    Ok(())
}

#[test]
fn no_call_stands_behind_a_failed_read(rt: HostRuntime) -> Result<(), Fail> {
    // The first call opens the file, and each read gives one byte.
    for call in 2..SMALL.len() as u64 + 3 {
        let mut files = MemFiles::new(rt.alloc(), 1);
        files.add_file("data", SMALL)?;
        files.fail_at(call)?;
        files.fail_at(call + 1)?;
        assert!(rt; files.open("data").is_ok());
        let mut reader = DataReader::new(rt.alloc())?;
        let mut step = reader.next_record(&mut files);
        for _ in 0..SMALL.len() {
            if step != Ok(RecordStep::Record) {
                break;
            }
            step = reader.next_record(&mut files);
        }
        assert!(rt; step == Err(DataFault::Failed));
        assert!(rt; reader.next_record(&mut files) == Err(DataFault::Failed));
        // The next call is the one that is listed behind the failed read.
        assert!(rt; files.open("data").is_err());
        assert!(rt; files.open("data").is_ok());
    }
    Ok(())
}
