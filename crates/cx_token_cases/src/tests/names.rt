//! Which names are names of types, worked out by hand from the rules.
use cx_base::{Memory, Text};
use cx_tokens::{LexAnswer, lex};
use cx_type_names::{NameSet, groups_are_spelled, members, type_names};
use std::alloc::{AllocGlobal, Global};
use std::process::Abort;
use std::test::Fail;

fn set_of(alloc: Global, source: &[u8]) -> Result<NameSet, Fail> {
    if source.len() > 100_000 {
        return Err(Fail::from("too long"));
    }
    match lex(alloc, source) {
        Ok(tokens) => type_names(alloc, &tokens).map_err(|_| Fail::from("memory")),
        Err(LexAnswer::Fault(_)) => Err(Fail::from("a lexical fault")),
        Err(LexAnswer::Memory) => Err(Fail::from("memory")),
    }
}

fn has(alloc: Global, names: &NameSet, name: &[u8]) -> Result<bool, Fail> {
    match Text::from_slice(alloc, name) {
        Ok(name) => Ok(names.has(&name)),
        Err(Memory) => Err(Fail::from("memory")),
    }
}

// Of the letters a, b and c those that are names of types, in order.
fn all_shown(rt: &(impl Abort + AllocGlobal), rows: &[(&[u8], &str)]) -> Result<(), Fail> {
    let alloc = rt.alloc();
    for (source, want) in rows {
        let names = set_of(alloc, source)?;
        for name in ["a", "b", "c"] {
            let got = has(alloc, &names, name.as_bytes())?;
            assert_eq!(rt; got, want.contains(name), "{name} of {want}");
        }
    }
    Ok(())
}

#[test]
fn names_of_sources(rt: HostRuntime) -> Result<(), Fail> {
    groups_are_spelled();
    members();
    all_shown(
        &rt,
        &[
            (b"", ""),
            (b"class a; union b {};", "ab"),
            (b"enum a : int { c };", "a"),
            (b"enum struct [[c]] b;", "b"),
            (b"int a; a b;", ""),
            (b"a struct c b", "c"),
            (b"a struct", ""),
            (b"struct union b;", "b"),
            (b"struct 'a' a; struct \"b\" b;", ""),
            (b"struct [[(b)[{c}]]] a;", "a"),
            (b"struct [[ struct [[ ]] b ]] a;", "ab"),
            (b"struct [[ ) ]] a;", ""),
            (b"struct [[ (] ]] a;", ""),
            (b"struct [c] a;", ""),
            (b"struct [ [c] ] a;", "a"),
            (b"struct [[ a; union b;", "b"),
            (b"struct [[]] [[)]] a;", ""),
            (b"struct [[)]] a; union [[]] b;", "b"),
            (b"struct {{c}} a;", ""),
            (b"using [[b]] a = int;", ""),
            (b"using a [[(]] = int;", ""),
            (b"using a == b;", ""),
            (b"using = a;", ""),
            (b"typedef a b c;", "c"),
            (b"typedef typedef a; typedef b;", "ab"),
            (b"typedef int a[3]; b;", ""),
            (b"typedef struct { int a; } b;", "a"),
        ],
    )
}

#[test]
fn names_of_the_library(rt: HostRuntime) -> Result<(), Fail> {
    let alloc = rt.alloc();
    let names = set_of(alloc, b"int max_align_t; struct final final;")?;
    for name in ["size_t", "ptrdiff_t", "nullptr_t", "final"] {
        assert!(rt; has(alloc, &names, name.as_bytes())?, "{name}");
    }
    for name in ["max_align_t", "size_", ""] {
        assert!(rt; !has(alloc, &names, name.as_bytes())?, "{name}");
    }
    Ok(())
}

fn many(alloc: Global, part: &str, count: usize) -> Result<String, Fail> {
    let mut out = String::new(alloc);
    for _ in 0..count {
        out.push_str(part)?;
    }
    Ok(out)
}

#[test]
fn many_brackets(rt: HostRuntime) -> Result<(), Fail> {
    let alloc = rt.alloc();
    let mut source = many(alloc, "struct [[", 3_000)?;
    source.push_str(" a ")?;
    let closed = many(alloc, "]]", 3_000)?;
    source.push_str(closed.as_str())?;
    source.push_str(" b;")?;
    all_shown(&rt, &[(source.as_bytes(), "b")])?;
    let open = many(alloc, "struct [[ ( ", 3_000)?;
    all_shown(&rt, &[(open.as_bytes(), "")])
}
