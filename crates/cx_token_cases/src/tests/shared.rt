//! What every crate shares: rules, texts, lists and limits.
use cx_base::{IntType, List, Rule, Text, limits_allowed, rule_tag, standard_limits};
use std::test::Fail;

#[test]
fn tags_of_rules(rt: HostRuntime) {
    assert_eq!(rt; rule_tag(Rule::SourceTooLong), "[profile] source-too-long");
    assert_eq!(rt; rule_tag(Rule::LimitObjects), "[implimits] limit-objects");
}

#[test]
fn texts_and_lists(rt: HostRuntime) -> Result<(), Fail> {
    let alloc = rt.alloc();
    let mut text = Text::new(alloc);
    text.push(b'a').map_err(|_| "memory")?;
    let other = Text::from_slice(alloc, b"a").map_err(|_| "memory")?;
    let same = text.copy().map_err(|_| "memory")?;
    assert!(rt; text.same(&other) && same.same(&text));
    assert!(rt; text.len() == 1);
    assert!(rt; text.at(0) == b'a' && text.as_slice() == b"a".as_slice());
    let mut list = List::new(alloc);
    list.push(IntType::Long).map_err(|_| "memory")?;
    assert!(rt; list.len() == 1);
    assert!(rt; *list.at(0) == IntType::Long && list.as_slice() == [IntType::Long].as_slice());
    let bytes = List::from_vec([7u8, 8].to_vec(alloc)?);
    assert!(rt; bytes.as_slice() == [7u8, 8].as_slice());
    Ok(())
}

#[test]
fn limits_at_their_ends(rt: HostRuntime) {
    let mut limits = standard_limits();
    assert!(rt; limits_allowed(&limits));
    for (depth, allowed) in [(0, false), (1, true), (4_096, true), (4_097, false)] {
        limits.depth = depth;
        assert!(rt; limits_allowed(&limits) == allowed);
    }
}
