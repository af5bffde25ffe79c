//! The standard streams as a source and a sink: readers and writers of these tests that fail once.
use cx_source::{ReadAnswer, Sink, Source, StdSink, StdSource, read_all, write_all};
use std::io;
use std::io::{Read, Write};

// It gives one byte at a call, and fails at its second call.
#[derive(Drop)]
struct FailingReader {
    calls: u8,
}

impl Read for FailingReader {
    fn read(&mut self, buf: &mut [u8]) -> io::Result<usize> {
        self.calls = self.calls.saturating_add(1);
        if self.calls == 2 {
            return Err(io::Error::from(io::ErrorKind::Other));
        }
        match buf {
            [] => Ok(0),
            [first, ..] => {
                *first = b'x';
                Ok(1)
            }
        }
    }
}

// It takes two bytes at a call, fails at its second call, and takes nothing at its third.
#[derive(Drop)]
struct FailingWriter {
    calls: u8,
}

impl Write for FailingWriter {
    fn write(&mut self, buf: &[u8]) -> io::Result<usize> {
        self.calls = self.calls.saturating_add(1);
        match self.calls {
            2 => Err(io::Error::from(io::ErrorKind::Other)),
            3 => Ok(0),
            _ => Ok(buf.len().min(2)),
        }
    }

    fn flush(&mut self) -> io::Result<()> {
        Ok(())
    }
}

#[test]
fn whole_reads_of_std(rt: HostRuntime) {
    let mut source = StdSource::new(b"abcdef".as_slice());
    let bytes = read_all(rt.alloc(), &mut source, 6).expect(&rt, "a whole read");
    assert!(rt; bytes.as_slice() == b"abcdef".as_slice());
}

#[test]
fn a_read_of_std_that_is_too_long(rt: HostRuntime) {
    let mut source = StdSource::new(b"abcdef".as_slice());
    assert!(rt; read_all(rt.alloc(), &mut source, 5) == Err(ReadAnswer::TooLong));
}

#[test]
fn a_reader_that_fails_once(rt: HostRuntime) {
    let mut buf = [0u8; 4];
    let mut source = StdSource::new(FailingReader { calls: 0 });
    assert!(rt; source.read(&mut buf) == Ok(1));
    assert!(rt; source.read(&mut buf).is_err());
    assert!(rt; source.read(&mut buf) == Ok(1));
}

#[test]
fn a_whole_write_of_std(rt: HostRuntime) {
    let mut sink = StdSink::new(Vec::new(rt.alloc()));
    assert!(rt; write_all(&mut sink, b"abc").is_ok());
    assert!(rt; sink.write(b"") == Ok(0));
}

#[test]
fn a_writer_that_fails_once(rt: HostRuntime) {
    let mut sink = StdSink::new(FailingWriter { calls: 0 });
    assert!(rt; sink.write(b"abc") == Ok(2));
    assert!(rt; sink.write(b"c").is_err());
    assert!(rt; sink.write(b"c").is_err());
    assert!(rt; sink.write(b"c") == Ok(1));
}
