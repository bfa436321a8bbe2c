//! Stimuli read whole and line by line, and what each says.

ghost use Rattle.std.specs.Prelude.{◌≡◌, ◌<◌, ◌≤◌};

use cov_port::{Files, MemFiles};
use cov_types::{ByteText, Rows, Var, VarKind};
use design_tree::{Design, Input};
use std::alloc::Global;
use std::fmt::Write;
use std::process::Abort;
use std::test::Fail;
use stimulus::{Row, RowStep, StimFault, StimReader, read_stim};

/// A design that has these inputs alone, each with its width.
fn design(alloc: Global, inputs: &[(&str, u8)]) -> Result<Design, Fail> {
    let mut vars = Rows::new(alloc);
    let mut named = Rows::new(alloc);
    let mut var = 0u32;
    for (name, width) in inputs {
        vars.push(Var {
            width: *width,
            words: 1,
            start: 0,
            kind: VarKind::Input,
        })?;
        named.push(Input {
            var,
            name: ByteText::from_slice(alloc, name.as_bytes())?,
        })?;
        var = var.wrapping_add(1);
    }
    Ok(Design {
        vars,
        inputs: named,
        outputs: Rows::new(alloc),
        processes: Rows::new(alloc),
    })
}

/// Writes a row: its values in hexadecimal, and its cycles.
fn show_row(out: &mut String, row: &Row) -> Result<(), Fail> {
    for value in row.values.as_slice() {
        write!(out, "{value:x} ")?;
    }
    write!(out, "x{}/", row.repeat)?;
    Ok(())
}

/// What the whole text says: its rows, and its fault.
fn whole(alloc: Global, text: &[u8], design: &Design) -> Result<String, Fail> {
    let mut out = String::new(alloc);
    match read_stim(alloc, text, design) {
        Ok(stim) => {
            for row in stim.rows.as_slice() {
                show_row(&mut out, row)?;
            }
            if let Some(fault) = stim.fault {
                write!(out, "{fault:?}")?;
            }
        }
        Err(fault) => write!(out, "no {fault:?}")?,
    }
    Ok(out)
}

/// The same, read line by line, with at most `piece` bytes a read.
fn by_lines(alloc: Global, text: &[u8], piece: u32, design: &Design) -> Result<String, Fail>
    requires { 1 ≤ piece }
{
    let mut files = MemFiles::new(alloc, piece);
    files.add_file("t.stim", text)?;
    let mut out = String::new(alloc);
    if files.open("t.stim").is_err() {
        return Ok(out);
    }
    match StimReader::header(alloc, &mut files, design) {
        Ok((reader, row)) => {
            let mut reader = reader;
            let mut row = row;
            'rows: for _ in 0..100u32 {
                match reader.next_row(&mut files, &mut row) {
                    Ok(RowStep::Row) => show_row(&mut out, &row)?,
                    Ok(RowStep::End) => break 'rows,
                    Err(fault) => {
                        write!(out, "{fault:?}")?;
                        if reader.next_row(&mut files, &mut row) != Err(fault) {
                            write!(out, " once")?;
                        }
                        break 'rows;
                    }
                }
            }
        }
        Err(fault) => write!(out, "no {fault:?}")?,
    }
    Ok(out)
}

/// Both readings of a text say this.
fn says(
    rt: &(impl Abort + AllocGlobal),
    inputs: &[(&str, u8)],
    text: &str,
    expected: &str,
) -> Result<(), Fail> {
    let alloc = rt.alloc();
    let design = design(alloc, inputs)?;
    let bytes = text.as_bytes();
    assert_eq!(rt; whole(alloc, bytes, &design)?.as_str(), expected);
    assert_eq!(rt; by_lines(alloc, bytes, 1, &design)?.as_str(), expected);
    assert_eq!(rt; by_lines(alloc, bytes, 7, &design)?.as_str(), expected);
    Ok(())
}

#[test]
fn stimuli_of_two_inputs(rt: HostRuntime) -> Result<(), Fail> {
    let rows: [(&str, &str); 24] = [
        ("rst a\n1 0\n0 1 x2\n", "1 0 x1/0 1 x2/"),
        ("a rst\n3f 0\n", "0 3f x1/"),
        ("  a   rst \n 3F   1  x007", "1 3f x7/"),
        ("# one\n#\nrst a\n# two\n0 1\n#\n#x", "0 1 x1/"),
        ("rst a\n0 1\n0 1\n0 1g\n0 1\n", "0 1 x1/0 1 x1/BadValue(4)"),
        ("rst a\n#\n2 0\n", "TooWide(3)"),
        ("rst a\n0 3f\n1 40\n", "0 3f x1/TooWide(3)"),
        ("rst a\n2 g\n", "TooWide(2)"),
        ("rst a\ng 40\n", "BadValue(2)"),
        ("rst a\n0 00000000000000000000000000000001\n", "0 1 x1/"),
        (
            "rst a\n0 000000000000000000000000000000001\n",
            "BadValue(2)",
        ),
        ("rst a\n0\n", "WrongCount(2)"),
        ("rst a\n0 0 0 x2\n", "WrongCount(2)"),
        ("rst a\n\n", "WrongCount(2)"),
        ("rst a\ng x0\n", "BadRepeat(2)"),
        ("rst a\n0 0 x\n", "BadRepeat(2)"),
        ("rst a\n0 0 x4294967297\n", "BadRepeat(2)"),
        ("rst a\n0 x1 0\n", "WrongCount(2)"),
        ("rst a\r\n0 0\r\n", "no UnknownInput(1)"),
        ("rst\ta\n0 0\n", "no UnknownInput(1)"),
        ("#\nrst rst b\n", "no RepeatedInput(2)"),
        ("rst b rst\n", "no UnknownInput(1)"),
        ("\nrst a\n", "no MissingInput(1)"),
        ("# alone", "no BadHeader(1)"),
    ];
    for (text, expected) in rows {
        says(&rt, &[("rst", 1), ("a", 6)], text, expected)?;
    }
    Ok(())
}

#[test]
fn stimuli_without_inputs(rt: HostRuntime) -> Result<(), Fail> {
    let rows: [(&str, &str); 7] = [
        ("\n\nx9\n  \n", "x1/x9/x1/"),
        ("\n", ""),
        ("", "no BadHeader(1)"),
        ("\nx4294967296\nx1\n", "x4294967296/TooManyCycles(3)"),
        ("\nx1\nx4294967296\n", "x1/TooManyCycles(3)"),
        ("\nx4294967295\n\n#\n\n", "x4294967295/x1/TooManyCycles(5)"),
        ("\n0\n", "WrongCount(2)"),
    ];
    for (text, expected) in rows {
        says(&rt, &[], text, expected)?;
    }
    Ok(())
}

/// A text with a line of this many bytes, which is a note or a row.
fn long_text(alloc: Global, begin: &str, len: usize, end: &str) -> Result<String, Fail> {
    let mut text = String::new(alloc);
    text.push_str("\n")?;
    text.push_str(begin)?;
    for _ in begin.len()..len {
        text.push_str(" ")?;
    }
    text.push_str(end)?;
    Ok(text)
}

#[test]
fn long_lines(rt: HostRuntime) -> Result<(), Fail> {
    let alloc = rt.alloc();
    let note = long_text(alloc, "#", 65_535, "\nx2\n")?;
    says(&rt, &[], note.as_str(), "x2/")?;
    let row = long_text(alloc, "x3", 65_535, "")?;
    says(&rt, &[], row.as_str(), "x3/")?;
    for end in ["", "\n", "\nx2\n"] {
        let note = long_text(alloc, "#", 65_536, end)?;
        says(&rt, &[], note.as_str(), "LineTooLong(2)")?;
    }
    Ok(())
}
