//! Tokens as data: what the lexer gives, and all that a parser needs to know of it.
#![tactic(auto)]

use cx_base::{Span, Text};
use cx_ints::Literal;

/// What kind of token it is.
#[derive(Clone, Copy, Debug, PartialEq, Eq)]
pub enum TokenKind {
    /// A word of the language ([lex.key]).
    Word,
    /// An identifier ([lex.name]).
    Ident,
    /// An integer literal ([lex.icon]).
    Number(Literal),
    /// A character literal, as a value of `char` ([lex.ccon]).
    Char(i8),
    /// A string literal ([lex.string]).
    Str,
    /// An operator or punctuator ([lex.operators]).
    Punct,
    /// Behind the last token.
    End,
}

/// A token. The text is its spelling, for a string its bytes, for an operator that a word spells the operator.
#[derive(Debug, Drop)]
pub struct Token {
    pub kind: TokenKind,
    pub span: Span,
    pub text: Text,
}
