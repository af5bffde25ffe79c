//! Each mode, in pieces of one byte.
use crate::runs::{byte_by_byte, tells};
use cx_cli::Status;

const TWO: &str = "constexpr int a = 2 + 3 * 4;\nconstexpr int b = a * a - 1;\n";

const WRONG: &str = "constexpr int a = 65536 * 65536;\n";

#[test]
fn two_constants(rt: HostRuntime) {
    let lines = "1:15 constexpr a = 14\n2:15 constexpr b = 195\naccepted 2\n";
    let number = "accepted 2\n";
    for (more, report) in [
        (["--seed", "1"], lines),
        (["--mode", "print"], lines),
        (["--mode", "notes"], lines),
        (["--mode", "check"], number),
        (["--turns=1", "--mode=check"], number),
    ] {
        let run = byte_by_byte(&more, TWO);
        assert!(rt; tells(&rt, &run, Status::Accepted, report));
    }
}

#[test]
fn a_product_out_of_range(rt: HostRuntime) {
    let report = "1:19-1:32 [expr.pre] overflow\n";
    for mode in ["print", "check", "notes"] {
        let more = ["--mode", mode];
        assert!(rt; tells(&rt, &byte_by_byte(&more, WRONG), Status::Refused, report));
    }
}

// The function of a made unit is a form that is left out today.
#[test]
fn a_made_unit(rt: HostRuntime) {
    let report = "1:1-1:114 [profile] left-out-form\n";
    let more = ["--mode", "make", "--count", "2"];
    assert!(rt; tells(&rt, &byte_by_byte(&more, WRONG), Status::Refused, report));
}
