//! Each call with a case that holds, and with one that doesn't.

use cx_base::{IntType, Rule, limits_allowed, standard_limits};
use cx_ints::{BinOp, Int};
use cx_vectors::{Case, IntCase, int_case, run_case};
use std::test::Fail;

fn case(report: &'static str) -> Case {
    Case {
        source: "constexpr int a = 1 + 2;",
        limits: standard_limits(),
        report,
    }
}

#[test]
fn reports(rt: HostRuntime) -> Result<(), Fail> {
    for (report, holds) in [
        ("1:15 constexpr a = 3\naccepted 1\n", true),
        ("accepted 1\n", false),
    ] {
        let case = case(report);
        assert!(rt; case.source.len() < 100 && limits_allowed(&case.limits));
        let got = run_case(rt.alloc(), &case).map_err(|_| "memory")?;
        assert_eq!(rt; got, holds, "{report}");
    }
    Ok(())
}

#[test]
fn answers(rt: HostRuntime) {
    let int = |value| Int {
        ty: IntType::Int,
        value,
    };
    let sum = |answer| IntCase {
        op: BinOp::Add,
        a: int(2_147_483_646),
        b: int(1),
        answer,
    };
    assert!(rt; int_case(&sum(Ok(int(2_147_483_647)))));
    assert!(rt; !int_case(&sum(Ok(int(2_147_483_646)))));
    assert!(rt; !int_case(&sum(Err(Rule::Overflow))));
}
