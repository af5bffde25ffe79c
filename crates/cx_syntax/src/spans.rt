//! Where tokens stand.

ghost use Rattle.std.specs.Prelude.{◌≡◌, length};
ghost use Rattle.cx_syntax.specs.Values.{span_of};

use crate::lexeme::Lexeme;
use cx_base::{Mark, Span};

const NO_MARK: Mark = Mark {
    byte: 0,
    line: 0,
    col: 0,
};

/// From the first token's first byte to the end of the last.
pub fn span_of(tokens: &[Lexeme]) -> Span
    ensures { result ≡ span_of tokens.now }
{
    match (tokens.first(), tokens.last()) {
        (Some(first), Some(last)) => Span {
            start: first.span.start,
            end: last.span.end,
        },
        _ => Span {
            start: NO_MARK,
            end: NO_MARK,
        },
    }
}
