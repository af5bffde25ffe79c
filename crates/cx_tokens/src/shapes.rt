ghost use Rattle.std.specs.Prelude.{◌≡◌};
ghost use Rattle.cx_tokens.specs.Pieces.{broken};
ghost use Rattle.cx_tokens.specs.Shapes.{shape_of};

use crate::TokenKind;
use cx_base::Rule;

/// A rule that is broken by `size` bytes, behind `start` bytes of the piece.
#[derive(Clone, Copy, Debug, PartialEq, Eq)]
pub struct Flaw {
    pub start: usize,
    pub size: usize,
    pub rule: Rule,
}

/// What begins at a place: so many bytes of white space or of a token, or so many of something whose first fault this is.
#[derive(Clone, Copy, Debug, PartialEq, Eq)]
pub enum Shape {
    White(usize),
    Token(usize, TokenKind),
    Faulty(usize, Flaw),
}

// The whole piece breaks the rule.
pub fn broken(size: usize, rule: Rule) -> Shape
    ensures { result ≡ shape_of (broken size rule) }
{
    Shape::Faulty(
        size,
        Flaw {
            start: 0,
            size,
            rule,
        },
    )
}
