//! What no clause says: that the system's files and streams give and take what they are to.

use cov_port::{FileFault, Files, RealFiles, RealSink, TakeFault, put_all, take_file};
use std::fs;
use std::fs::File;
use std::io::Write;
use std::test::Fail;

/// A stream that takes at most so many bytes at a call.
#[derive(Drop)]
struct Narrow<W: Write> {
    to: W,
    most: usize,
}

impl<W: Write> Write for Narrow<W> {
    fn write(&mut self, bytes: &[u8]) -> std::io::Result<usize> {
        let count = bytes.len().min(self.most);
        self.to.write(&bytes[..count])
    }

    fn flush(&mut self) -> std::io::Result<()> {
        self.to.flush()
    }
}

#[test]
fn stores_and_reads_files(rt: HostRuntime) -> Result<(), Fail> {
    let _ = fs::remove_dir_all(&rt, "port_tests_files");
    fs::create_dir(&rt, "port_tests_files")?;
    let mut files = RealFiles::new(&rt);
    let mut buf = [0u8; 4];
    assert_eq!(rt; files.read(&mut buf), Ok(0));
    assert_eq!(rt; files.store("port_tests_files/a", b"one two three"), Ok(()));
    assert_eq!(rt; files.store("port_tests_files/a", b"one two"), Ok(()));
    assert_eq!(rt; files.open("port_tests_files/a"), Ok(()));
    assert_eq!(rt; files.read(&mut buf), Ok(4));
    assert_eq!(rt; buf.as_slice(), b"one ".as_slice());
    assert_eq!(rt; files.read(&mut buf), Ok(3));
    assert_eq!(rt; &buf[..3], b"two".as_slice());
    assert_eq!(rt; files.read(&mut buf), Ok(0));
    // A refused open closes the file that was open, though bytes of it are left.
    assert_eq!(rt; files.open("port_tests_files/a"), Ok(()));
    assert_eq!(rt; files.read(&mut buf), Ok(4));
    assert_eq!(rt;
        files.open("port_tests_files/absent"),
        Err(FileFault::Failed)
    );
    assert_eq!(rt; files.read(&mut buf), Ok(0));
    assert_eq!(rt;
        files.store("port_tests_files/no/folder", b"a"),
        Err(FileFault::Failed)
    );
    for (most, text) in [(7, "one two"), (6, "one two"), (3, "one ")] {
        match take_file(rt.alloc(), &mut files, "port_tests_files/a", most) {
            Ok(taken) => assert_eq!(rt; taken.as_slice(), text.as_bytes()),
            Err(fault) => assert!(rt; false, "{fault}"),
        }
    }
    let folder = take_file(rt.alloc(), &mut files, "port_tests_files", 7);
    assert!(rt; matches!(&folder, Err(TakeFault::ReadFailed)));
    fs::remove_dir_all(&rt, "port_tests_files")?;
    Ok(())
}

#[test]
fn puts_into_a_stream(rt: HostRuntime) -> Result<(), Fail> {
    let _ = fs::remove_dir_all(&rt, "port_tests_stream");
    fs::create_dir(&rt, "port_tests_stream")?;
    let mut sink = RealSink::new(Narrow {
        to: File::create(&rt, "port_tests_stream/a")?,
        most: 3,
    });
    assert_eq!(rt; put_all(&mut sink, b"one "), Ok(()));
    assert_eq!(rt; put_all(&mut sink, b""), Ok(()));
    assert_eq!(rt; put_all(&mut sink, b"two three"), Ok(()));
    drop(sink);
    assert_eq!(rt;
        fs::read(&rt, "port_tests_stream/a")?.as_slice(),
        b"one two three".as_slice()
    );
    let mut deaf = RealSink::new(Narrow {
        to: File::create(&rt, "port_tests_stream/b")?,
        most: 0,
    });
    assert!(rt; put_all(&mut deaf, b"three").is_err());
    let mut closed = RealSink::new(File::open(&rt, "port_tests_stream/a")?);
    assert!(rt; put_all(&mut closed, b"three").is_err());
    fs::remove_dir_all(&rt, "port_tests_stream")?;
    Ok(())
}
