//! The tokens of whole sources.
use cx_base::{IntType, Rule};
use cx_ints::Literal;
use cx_token_defs::{Token, TokenKind};
use cx_tokens::{LexAnswer, lex, tokens_or_fault};
use std::alloc::{AllocGlobal, Global};
use std::process::Abort;
use std::test::Fail;

// A token's kind and text, and the line and column where it begins and where it ends.
#[derive(Drop)]
struct Row<'a> {
    kind: TokenKind,
    text: &'a [u8],
    start: (u32, u32),
    end: (u32, u32),
}

fn shown(kind: TokenKind, text: &[u8], start: (u32, u32), end: (u32, u32)) -> Row<'_> {
    Row {
        kind,
        text,
        start,
        end,
    }
}

fn number(ty: IntType, value: u64) -> TokenKind {
    TokenKind::Number(Literal::new(ty, value))
}

fn is_row(token: &Token, row: &Row<'_>) -> bool {
    let (start, end) = (token.span.start, token.span.end);
    token.kind == row.kind
        && token.text.as_slice() == row.text
        && (start.line, start.col) == row.start
        && (end.line, end.col) == row.end
}

fn has_rows(rt: &(impl Abort + AllocGlobal), source: &[u8], rows: &[Row<'_>]) -> Result<(), Fail> {
    if source.len() > 100_000 {
        return Err(Fail::from("too long"));
    }
    let tokens = match lex(rt.alloc(), source) {
        Ok(tokens) => tokens,
        Err(LexAnswer::Fault(_)) => return Err(Fail::from("a fault")),
        Err(LexAnswer::Memory) => return Err(Fail::from("memory")),
    };
    assert_eq!(rt; tokens.len(), rows.len());
    for (token, row) in tokens.as_slice().iter().zip(rows) {
        assert!(rt; is_row(token, row), "{token:?}");
    }
    Ok(())
}

#[test]
fn every_kind_in_its_place(rt: HostRuntime) -> Result<(), Fail> {
    tokens_or_fault();
    has_rows(
        &rt,
        b"int a\t= 0x1'e+5;\r\n/*\n*/ 'b' and \"\\x80\xff\"",
        &[
            shown(TokenKind::Word, b"int", (1, 1), (1, 4)),
            shown(TokenKind::Ident, b"a", (1, 5), (1, 6)),
            shown(TokenKind::Punct, b"=", (1, 7), (1, 8)),
            shown(number(IntType::Int, 30), b"0x1'e", (1, 9), (1, 14)),
            shown(TokenKind::Punct, b"+", (1, 14), (1, 15)),
            shown(number(IntType::Int, 5), b"5", (1, 15), (1, 16)),
            shown(TokenKind::Punct, b";", (1, 16), (1, 17)),
            shown(TokenKind::Char(98), b"'b'", (3, 4), (3, 7)),
            shown(TokenKind::Punct, b"&&", (3, 8), (3, 11)),
            shown(TokenKind::Str, b"\x80\xff", (3, 12), (3, 19)),
            shown(TokenKind::End, b"", (3, 19), (3, 19)),
        ],
    )
}

#[test]
fn the_longest_names(rt: HostRuntime) -> Result<(), Fail> {
    let alloc = rt.alloc();
    let name = vec![in alloc; b'x'; 1_024]?;
    has_rows(
        &rt,
        name.as_slice(),
        &[
            shown(TokenKind::Ident, name.as_slice(), (1, 1), (1, 1_025)),
            shown(TokenKind::End, b"", (1, 1_025), (1, 1_025)),
        ],
    )?;
    let name = vec![in alloc; b'x'; 1_025]?;
    match lex(alloc, name.as_slice()) {
        Err(LexAnswer::Fault(fault)) => {
            assert!(rt; fault.rule == Rule::LongName && fault.span.end.col == 1_026);
        }
        Err(LexAnswer::Memory) => return Err(Fail::from("memory")),
        Ok(_) => return Err(Fail::from("no fault")),
    }
    Ok(())
}
