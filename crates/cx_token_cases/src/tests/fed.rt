//! Sources that come by pieces, cut behind each byte, and byte by byte.
use cx_base::{Diag, List};
use cx_lexer::Lexer;
use cx_source::{PlainSource, feed_all};
use cx_token_defs::Token;
use cx_tokens::{LexAnswer, lex};
use std::alloc::{AllocGlobal, Global};
use std::process::Abort;
use std::test::Fail;

// What a lexer answers that is fed a source in pieces of so many bytes.
fn fed(
    alloc: Global,
    source: &[u8],
    pieces: Vec<usize>,
) -> Result<Result<List<Token>, LexAnswer>, Fail> {
    let mut lexer = Lexer::new(alloc).map_err(|_| "memory")?;
    let mut bytes = PlainSource::new(source.to_vec(alloc)?, pieces);
    match feed_all(&mut bytes, &mut lexer, 4_194_304) {
        Ok(_) => Ok(lexer.end()),
        Err(_) => Err(Fail::from("not read")),
    }
}

fn same_token(a: &Token, b: &Token) -> bool {
    a.kind == b.kind && a.span == b.span && a.text.same(&b.text)
}

fn same_tokens(a: &List<Token>, b: &List<Token>) -> bool {
    a.len() == b.len()
        && a.as_slice()
            .iter()
            .zip(b.as_slice())
            .all(|(x, y)| same_token(x, y))
}

fn same_fault(a: &Diag, b: &Diag) -> bool {
    a.rule == b.rule && a.span == b.span
}

fn same(a: &Result<List<Token>, LexAnswer>, b: &Result<List<Token>, LexAnswer>) -> bool {
    match (a, b) {
        (Ok(a), Ok(b)) => same_tokens(a, b),
        (Err(LexAnswer::Fault(a)), Err(LexAnswer::Fault(b))) => same_fault(a, b),
        _ => false,
    }
}

// Where a source is cut makes no difference.
fn however_cut(rt: &(impl Abort + AllocGlobal), source: &[u8]) -> Result<(), Fail> {
    let alloc = rt.alloc();
    if source.len() > 100_000 {
        return Err(Fail::from("too long"));
    }
    let whole = lex(alloc, source);
    for cut in 1..source.len() {
        let pieces = vec![in alloc; cut, 100_000]?;
        let got = fed(alloc, source, pieces)?;
        assert!(rt; same(&whole, &got), "cut at {cut}");
    }
    for size in [1, 2, 3, 5, 4_096] {
        let pieces = vec![in alloc; size]?;
        let got = fed(alloc, source, pieces)?;
        assert!(rt; same(&whole, &got), "by {size}");
    }
    Ok(())
}

#[test]
fn the_cuts_do_not_matter(rt: HostRuntime) -> Result<(), Fail> {
    let sources: &[&[u8]] = &[
        b"",
        b"constexpr int a = 0x1'F; /* c */ constexpr int b = 62;",
        b"int f(int x { return x; }",
        b"int @x;",
        b"0x1'e+5 1+e-2 0b1'01 4294967296u 1Lu 08 .5 1.e",
        b">>=>>> +++--->  <::b<<:: <:::> a..b::: -> * -> ...",
        b"'a' '\\'' '\\101' '\\377' '\\x80' 'ab'c \"\\q\"x",
        b"\"\" \"\\n\\x41g\\1234\\\"'\" \"\t\x80\xff\" \"open\nint",
        b"and bitor compl not_eq andy u8\"\" u8 L'a'",
        b"/**/a/*/ */b // c \\\\\n d //\\\n e",
        b"# 1 ' \\\n#pragma x\n  #line 3 /*\nb",
        b"# \t 1",
        b"#\tpragmatic\n",
        b"a # 1\n",
        b"/* a \\\r\n */ b",
        b"a\\\r\nb \\ c",
        b"/* open \\\n",
        b"\"\\x",
        b"'\\",
    ];
    for source in sources {
        however_cut(&rt, source)?;
    }
    Ok(())
}
