//! Tokens as the grammar sees them.

ghost use Rattle.std.specs.Prelude.{◌≡◌};
ghost use Rattle.cx_syntax.specs.Classes.{same_class};

use crate::class::Class;
use cx_base::{Span, Text};
use cx_grammar::Test;
use cx_token_defs::TokenKind;

/// A token as the grammar sees it: its class, and what its value is made from.
#[derive(Debug, Drop)]
pub struct Lexeme {
    pub class: Class,
    /// A number's or a character's value.
    pub kind: TokenKind,
    pub span: Span,
    /// The text of a name or a string; of other tokens it is empty.
    pub text: Text,
}

#[tactic(auto, unfolding(crate::specs::Classes::same_class))]
fn same_class(a: Class, b: Class) -> bool
    ensures { result ≡ same_class a b }
{
    a == b
}

impl Test<Lexeme> for Class {
    ghost use Rattle.cx_syntax.specs.Classes.{is};

    ghost holds = { is };

    fn test(&self, token: &Lexeme) -> bool {
        same_class(token.class, *self)
    }
}
