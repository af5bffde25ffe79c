//! The tokens of a source, whole or by pieces.
ghost use Rattle.std.specs.Prelude.{ℕ, List as Seq, ◌≡◌, ◌≤◌, ◌+◌, [], drop, length, IfOk, IfErr};
ghost use Rattle.cx_tokens.specs.Marks.{Counts};
ghost use Rattle.cx_tokens.specs.Reached.{Advances, Answers, Reached, Stands};
ghost use Rattle.cx_tokens.specs.Steps.{Lies};
ghost use Rattle.cx_tokens.specs.Tokens.{Explains, Lexes};

use crate::bytes::rest_from;
use crate::decided::is_decided;
use crate::found::found_at;
use crate::step::{Here, over};
use crate::{LexAnswer, Token, TokenKind};
use cx_base::{List, Mark, Span, Text};
use std::alloc::Global;

/// The beginning of a text.
pub fn start() -> Here
    ensures begins { Stands [] result [] }
    ensures at { result.at ≡ 0 }
    ensures counted { Counts result.mark 0 }
{
    Here {
        at: 0,
        mark: Mark {
            byte: 0,
            line: 1,
            col: 1,
        },
        opens: true,
    }
}

/// The tokens of a source and `End` behind them, or its first lexical fault ([lex]).
pub fn lex(alloc: Global, bytes: &[u8]) -> Result<List<Token>, LexAnswer>
    requires { length bytes.now ≤ 4_194_305 }
    ensures tokens { IfOk result (λ tokens. Lexes bytes.now tokens) }
    ensures fault { IfErr result (λ answer. Explains bytes.now answer) }
{
    finish(alloc, List::new(alloc), bytes, start())
}

/// The tokens of a text and `End` behind them, or its first lexical fault, where these tokens end here and this is
/// the rest of the text ([lex]).
pub fn finish(
    alloc: Global,
    tokens: List<Token>,
    rest: &[u8],
    start: Here,
) -> Result<List<Token>, LexAnswer>
    requires room { start.at + length rest.now ≤ 4_194_305 }
    requires counted { Counts start.mark start.at }
    ensures { (bytes : Seq ℕ) → drop start.at bytes ≡ rest.now → Reached bytes start tokens → Answers bytes result }
{
    let mut tokens = tokens;
    let mut here = start;
    let mut left = rest;
    'pieces: while !left.is_empty() {
        let shape = found_at(here.opens, left);
        match over(alloc, &mut tokens, left, here, shape) {
            Ok(next) => {
                left = rest_from(left, next.at - here.at);
                here = next;
            }
            Err(answer) => return Err(answer),
        }
    }
    let span = Span {
        start: here.mark,
        end: here.mark,
    };
    let end = Token {
        kind: TokenKind::End,
        span,
        text: Text::new(alloc),
    };
    match tokens.push(end) {
        Ok(()) => Ok(tokens),
        Err(_) => Err(LexAnswer::Memory),
    }
}

/// Over the pieces at the front of these bytes that stay the same whatever comes behind the bytes: their tokens are
/// added, or the first fault is answered that every text has which goes on like that ([lex]).
pub fn advance(
    alloc: Global,
    tokens: &mut List<Token>,
    front: &[u8],
    start: Here,
) -> Result<Here, LexAnswer>
    requires room { start.at + length front.now ≤ 4_194_305 }
    requires counted { Counts start.mark start.at }
    ensures advances { (bytes : Seq ℕ) → drop start.at bytes ≡ front.now → Stands bytes start tokens.old → Advances bytes tokens.new result }
    ensures lies { IfOk result (λ next. Lies start next (length front.now)) }
{
    let mut here = start;
    let mut left = front;
    let mut shape = found_at(here.opens, left);
    'pieces: while is_decided(here.opens, left, &shape) {
        match over(alloc, tokens, left, here, shape) {
            Ok(next) => {
                left = rest_from(left, next.at - here.at);
                here = next;
                shape = found_at(here.opens, left);
            }
            Err(answer) => return Err(answer),
        }
    }
    Ok(here)
}
