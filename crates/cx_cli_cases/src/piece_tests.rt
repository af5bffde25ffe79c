//! Sources in pieces: where they are cut makes no difference.
use crate::runs::{Run, byte_by_byte, tells};
use cx_cli::Status;

#[test]
fn where_a_source_is_cut(rt: HostRuntime) {
    let two = byte_by_byte(
        &[],
        "constexpr int a = 0x1'F; /* c */ constexpr int b = 62;",
    );
    let wrong = byte_by_byte(&[], "int f(int x { return x; }");
    for piece in [1, 2, 3, 5, 4_096] {
        let lines = "1:15 constexpr a = 31\n1:48 constexpr b = 62\naccepted 2\n";
        assert!(rt; tells(&rt, &Run { piece, ..two }, Status::Accepted, lines));
        let fault = "1:13-1:14 [gram] syntax\n";
        assert!(rt; tells(&rt, &Run { piece, ..wrong }, Status::Refused, fault));
    }
}

#[test]
fn a_fault_of_reading_comes_before_a_wrong_byte(rt: HostRuntime) {
    let wrong = Run {
        piece: 3,
        failing: 2,
        ..byte_by_byte(&[], "int @x;")
    };
    assert!(rt; tells(&rt, &wrong, Status::ReadFault, ""));
}
