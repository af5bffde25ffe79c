//! Over one piece of the text.
ghost use Rattle.std.specs.Prelude.{ℕ, List as Seq, ◌≡◌, ◌<◌, ◌≤◌, ◌+◌, ◌==◌, ◌||◌, ◌&&◌, ◌∷◌, ◌++◌, [], not, length, take, drop, IfOk, OnOk};
ghost use Rattle.std.specs.List.{list_any};
ghost use Rattle.cx_tokens.specs.Bytes.{byte_at, is_line_feed};
ghost use Rattle.cx_tokens.specs.Marks.{Counts, mark_of, marks_on};
ghost use Rattle.cx_tokens.specs.Shapes.{shape_of};
ghost use Rattle.cx_tokens.specs.Steps.{GoesOn, Steps, fault_on, opens_after};
ghost use Rattle.cx_tokens.specs.Cut.{found_at, text_of, token_from};

use crate::bytes::{byte_at, front_of};
use crate::literals::string_bytes;
use crate::marks::mark_on;
use crate::names::operator_of;
use crate::shapes::{Flaw, Shape};
use crate::{LexAnswer, Token, TokenKind};
use cx_base::{Diag, List, Mark, Memory, Span, Text};
use std::alloc::Global;

/// A place of the text, its mark, and whether only white space stands before it in its line.
#[derive(Clone, Copy)]
pub struct Here {
    /// How many bytes of the text stand before it.
    pub at: usize,
    pub mark: Mark,
    pub opens: bool,
}

fn text_of(alloc: Global, kind: &TokenKind, spelling: &[u8]) -> Result<Text, Memory>
    ensures { IfOk result (λ text. text ≡ text_of kind.now spelling.now) }
{
    match kind {
        TokenKind::Str => string_bytes(alloc, spelling),
        TokenKind::Punct => Text::from_slice(alloc, operator_of(spelling)),
        _ => Text::from_slice(alloc, spelling),
    }
}

fn has_line_feed(bytes: &[u8]) -> bool
    ensures { result ≡ list_any is_line_feed bytes.now }
{
    for b in bytes {
        if *b == b'\n' {
            return true;
        }
    }
    false
}

// Whether the line has white space alone behind this piece of white space.
fn opens_after(piece: &[u8], opens: bool) -> bool
    ensures { result ≡ opens_after piece.now opens }
{
    (piece.len() == 1 && byte_at(piece, 0) == b'\n') || (opens && !has_line_feed(piece))
}

fn token(
    alloc: Global,
    tokens: &mut List<Token>,
    kind: TokenKind,
    spelling: &[u8],
    span: Span,
) -> Result<(), Memory>
    ensures { OnOk result (tokens.new ≡ tokens.old ++ record { kind = kind; span = span; text = text_of kind spelling.now } ∷ []) }
{
    let text = text_of(alloc, &kind, spelling)?;
    tokens.push(Token { kind, span, text })
}

// The fault of a flaw of the piece with which the rest begins.
fn fault(alloc: Global, rest: &[u8], here: Here, flaw: Flaw) -> LexAnswer
    requires room { here.at + length rest.now ≤ 4_194_305 }
    requires counted { Counts here.mark here.at }
    ensures { result ≡ LexAnswer.Fault (fault_on here.mark rest.now flaw) }
{
    let from = flaw.start.min(rest.len());
    let to = flaw.start.saturating_add(flaw.size).min(rest.len());
    let start = mark_on(front_of(rest, from), here.mark);
    let end = mark_on(front_of(rest, to), here.mark);
    let span = Span { start, end };
    LexAnswer::Fault(Diag {
        span,
        rule: flaw.rule,
        frames: List::new(alloc),
    })
}

// Behind a piece.
fn behind(here: Here, piece: &[u8], opens: bool) -> Here
    requires room { here.at + length piece.now ≤ 4_194_305 }
    requires counted { Counts here.mark here.at }
    ensures place { result ≡ record { at = here.at + length piece.now; mark = marks_on here.mark piece.now; opens = opens } }
    ensures counted { Counts result.mark result.at }
{
    Here {
        at: here.at + piece.len(),
        mark: mark_on(piece, here.mark),
        opens,
    }
}

/// Over the piece with which the rest of a text begins and whose shape this is: its token is added, or its first
/// fault is answered.
pub fn over(
    alloc: Global,
    tokens: &mut List<Token>,
    rest: &[u8],
    here: Here,
    shape: Shape,
) -> Result<Here, LexAnswer>
    requires some { 0 < length rest.now }
    requires room { here.at + length rest.now ≤ 4_194_305 }
    requires counted { Counts here.mark here.at }
    requires found { shape ≡ shape_of (found_at here.opens rest.now) }
    ensures steps { (bytes : Seq ℕ) → drop here.at bytes ≡ rest.now → here.mark ≡ mark_of (take here.at bytes) → Steps bytes here tokens.old tokens.new result }
    ensures on { IfOk result (λ next. GoesOn here next (length rest.now)) }
{
    match shape {
        Shape::White(size) => {
            let piece = front_of(rest, size);
            let opens = opens_after(piece, here.opens);
            Ok(behind(here, piece, opens))
        }
        Shape::Token(size, kind) => {
            let piece = front_of(rest, size);
            let next = behind(here, piece, false);
            let span = Span {
                start: here.mark,
                end: next.mark,
            };
            match token(alloc, tokens, kind, piece, span) {
                Ok(()) => Ok(next),
                Err(_) => Err(LexAnswer::Memory),
            }
        }
        Shape::Faulty(_, flaw) => Err(fault(alloc, rest, here, flaw)),
    }
}
