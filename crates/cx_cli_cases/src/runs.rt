//! Runs of the top call over memory.
use cx_cli::{Status, cx_main};
use cx_source::{MemSink, MemSource};
use std::process::Abort;

/// A run: the words after the program's name, the unit, at most how many bytes a read gives, the read that fails, and
/// the room of the sink.
#[derive(Clone, Copy)]
pub struct Run<'a> {
    pub more: &'a [&'a str],
    pub unit: &'a [u8],
    pub piece: usize,
    pub failing: usize,
    pub room: usize,
}

/// A run in pieces of one byte, in which nothing fails.
pub fn byte_by_byte<'a>(more: &'a [&'a str], unit: &'a str) -> Run<'a> {
    Run {
        more,
        unit: unit.as_bytes(),
        piece: 1,
        failing: 0,
        room: 1_000,
    }
}

fn words(rt: &(impl Abort + AllocGlobal), more: &[&str]) -> Vec<String> {
    let mut words = Vec::new(rt.alloc());
    words
        .push(String::from_str(rt.alloc(), "cxeval").expect(rt, "memory"))
        .expect(rt, "memory");
    for word in more {
        words
            .push(String::from_str(rt.alloc(), word).expect(rt, "memory"))
            .expect(rt, "memory");
    }
    words
}

fn source(rt: &(impl Abort + AllocGlobal), run: &Run<'_>) -> MemSource {
    let bytes = run.unit.to_vec(rt.alloc()).expect(rt, "memory");
    let pieces = [run.piece].to_vec(rt.alloc()).expect(rt, "memory");
    let failing = [run.failing].to_vec(rt.alloc()).expect(rt, "memory");
    MemSource::new(bytes, pieces, failing)
}

/// Whether the run answers this status and writes this.
pub fn tells(rt: &(impl Abort + AllocGlobal), run: &Run<'_>, status: Status, report: &str) -> bool {
    let words = words(rt, run.more);
    let mut source = source(rt, run);
    let sink = MemSink::with_room(rt.alloc(), run.room, 7, Vec::new(rt.alloc()));
    let mut sink = sink.expect(rt, "room");
    let got = cx_main(rt.alloc(), &words, &mut source, &mut sink);
    got == status && sink.bytes() == report.as_bytes()
}
