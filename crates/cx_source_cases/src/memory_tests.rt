//! Sources and sinks in memory, over several calls.
use cx_source::{
    MemSink, MemSource, NullSink, PlainSource, ReadAnswer, Sink, Source, WriteFault, read_all,
    write_all,
};
use std::alloc::Global;
use std::process::Abort;

fn letters(rt: &impl Abort, alloc: Global) -> Vec<u8> {
    b"abcdefgh".as_slice().to_vec(alloc).expect(rt, "memory")
}

fn numbers(rt: &impl Abort, alloc: Global, list: &[usize]) -> Vec<usize> {
    list.to_vec(alloc).expect(rt, "memory")
}

#[test]
fn a_source_keeps_its_pieces_and_its_failing_calls(rt: HostRuntime) {
    let mut source = MemSource::new(
        letters(&rt, rt.alloc()),
        numbers(&rt, rt.alloc(), &[0, 2, 3]),
        numbers(&rt, rt.alloc(), &[2, 4]),
    );
    let mut buf = [0u8; 8];
    for (want, last) in [
        (Some(1), b'a'),
        (None, b'a'),
        (Some(3), b'd'),
        (None, b'd'),
        (Some(2), b'f'),
        (Some(2), b'h'),
        (Some(0), b'h'),
    ] {
        let got = source.read(&mut buf).ok();
        assert!(rt; got == want, "before {want:?}");
        if let Some(count @ 1..=8) = got {
            assert!(rt; buf[count - 1] == last, "at {want:?}");
        }
    }
}

#[test]
fn a_plain_source_gives_the_same_pieces(rt: HostRuntime) {
    let mut source = PlainSource::new(
        letters(&rt, rt.alloc()),
        numbers(&rt, rt.alloc(), &[0, 2, 3]),
    );
    let mut buf = [0u8; 8];
    for want in [1, 2, 3, 1, 1, 0] {
        assert!(rt; source.read(&mut buf) == Ok(want));
    }
}

#[test]
fn a_whole_read(rt: HostRuntime) {
    let mut source = PlainSource::new(letters(&rt, rt.alloc()), numbers(&rt, rt.alloc(), &[3]));
    let bytes = read_all(rt.alloc(), &mut source, 8).expect(&rt, "a whole read");
    assert!(rt; bytes.as_slice() == b"abcdefgh".as_slice());
}

#[test]
fn whole_reads_that_end_early(rt: HostRuntime) {
    for (failing, limit, want) in [
        (9, 7, ReadAnswer::TooLong),
        (3, 8, ReadAnswer::ReadFault),
        (5, 8, ReadAnswer::ReadFault),
    ] {
        let mut source = MemSource::new(
            letters(&rt, rt.alloc()),
            numbers(&rt, rt.alloc(), &[2]),
            numbers(&rt, rt.alloc(), &[failing]),
        );
        assert!(rt; read_all(rt.alloc(), &mut source, limit) == Err(want));
    }
}

#[test]
fn a_sink_keeps_its_room_and_its_piece(rt: HostRuntime) {
    let mut sink = MemSink::with_room(rt.alloc(), 5, 2, numbers(&rt, rt.alloc(), &[2])).expect(
        &rt, "memory",
    );
    assert!(rt; sink.write(b"abcd") == Ok(2));
    assert!(rt; sink.write(b"cd").is_err());
    assert!(rt; sink.write(b"cd") == Ok(2));
    assert!(rt; sink.write(b"ef") == Ok(1));
    assert!(rt; sink.write(b"f").is_err());
    assert!(rt; sink.bytes() == b"abcde".as_slice());
}

#[test]
fn a_whole_write_past_the_room(rt: HostRuntime) {
    let mut sink = MemSink::with_room(rt.alloc(), 4, 3, numbers(&rt, rt.alloc(), &[])).expect(
        &rt, "memory",
    );
    assert!(rt; write_all(&mut sink, b"abcdef") == Err(WriteFault { written: 4 }));
    assert!(rt; sink.bytes() == b"abcd".as_slice());
}

#[test]
fn a_sink_without_content_counts(rt: HostRuntime) {
    let mut sink = NullSink::new();
    assert!(rt; write_all(&mut sink, b"abc").is_ok());
    assert!(rt; sink.write(b"") == Ok(0));
    assert!(rt; sink.write(b"de") == Ok(2));
    assert!(rt; sink.count() == 5);
}
