//! What each answer comes from.
use crate::answered;
use crate::runs::{Run, byte_by_byte, tells};
use cx_cli::Status;
use cx_source::{NullSink, PlainSource};

const UNIT: &str = "constexpr int a = 6 * 7;\n";

#[test]
fn faults(rt: HostRuntime) {
    let whole = byte_by_byte(&[], UNIT);
    let failing = Run {
        failing: 2,
        ..whole
    };
    assert!(rt; tells(&rt, &failing, Status::ReadFault, ""));
    let narrow = Run { room: 10, ..whole };
    let fault = Status::WriteFault { written: 10 };
    assert!(rt; tells(&rt, &narrow, fault, "1:15 const"));
    assert!(rt; Status::ReadFault.code() == 3 && fault.code() == 4);
}

#[test]
fn refused_words(rt: HostRuntime) {
    for more in [
        ["--turns", "0"],
        ["--turns", "-1"],
        ["--mode", "other"],
        ["", ""],
    ] {
        assert!(rt; tells(&rt, &byte_by_byte(&more, UNIT), Status::Usage, ""));
    }
    assert!(rt; tells(&rt, &byte_by_byte(&["-h"], UNIT), Status::Usage, ""));
    assert!(rt; Status::Usage.code() == 2 && Status::Memory.code() == 5);
}

#[test]
fn the_longest_source(rt: HostRuntime) {
    let spaces = vec![in rt.alloc(); b' '; 4_194_305].expect(&rt, "memory");
    let whole = Run {
        more: &[],
        unit: &spaces,
        piece: 5_000,
        failing: 0,
        room: 100,
    };
    let too_long = "1:1-1:1 [profile] source-too-long\n";
    assert!(rt; tells(&rt, &whole, Status::Refused, too_long));
    let unit = spaces.get(1..).expect(&rt, "a byte");
    let longest = Run { unit, ..whole };
    assert!(rt; tells(&rt, &longest, Status::Accepted, "accepted 0\n"));
}

#[test]
fn a_source_and_a_sink_that_never_fail(rt: HostRuntime) {
    let bytes = UNIT.as_bytes().to_vec(rt.alloc()).expect(&rt, "memory");
    let pieces = [1].to_vec(rt.alloc()).expect(&rt, "memory");
    let mut source = PlainSource::new(bytes, pieces);
    let mut sink = NullSink::new();
    let status = answered(rt.alloc(), &Vec::new(rt.alloc()), &mut source, &mut sink);
    assert!(rt; status == Status::Accepted && status.code() == 0);
    assert_eq!(rt; sink.count(), 33);
}
