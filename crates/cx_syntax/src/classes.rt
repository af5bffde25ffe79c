//! Tokens as the grammar sees them.

ghost use Rattle.std.specs.Prelude.{◌≡◌, Bool, IfOk};
ghost use Rattle.cx_syntax.specs.Classes.{class_of, has_text, lexeme_of, lexemes_of, name_class, number_class, text_kept};

use crate::class::Class;
use crate::lexeme::Lexeme;
use crate::spellings::{operator_class, word_class};
use cx_base::{List, Memory, Text};
use cx_token_defs::{Token, TokenKind};
use std::alloc::Global;

/// The set of the names of types.
pub trait TypeNames {
    ghost use Rattle.std.specs.Prelude.{Bool, List as Seq, ℕ};

    ghost holds: { Self → Seq ℕ → Bool };

    /// Whether the text is the name of a type.
    fn names_type(&self, text: &Text) -> bool
        ensures { result ≡ holds self.now text.now };
}

#[tactic(auto, unfolding(crate::specs::Classes::name_class))]
fn name_class(is_type: bool, text: &[u8]) -> Class
    ensures { result ≡ name_class is_type text.now }
{
    if text == b"final".as_slice() {
        if is_type {
            Class::FinalType
        } else {
            Class::FinalIdent
        }
    } else if text == b"override".as_slice() {
        if is_type {
            Class::OverrideType
        } else {
            Class::OverrideIdent
        }
    } else if is_type {
        Class::TypeName
    } else {
        Class::Ident
    }
}

#[tactic(auto, unfolding(crate::specs::Classes::number_class))]
fn number_class(text: &[u8]) -> Class
    ensures { result ≡ number_class text.now }
{
    if text == b"0".as_slice() {
        Class::Zero
    } else {
        Class::Number
    }
}

/// The class of a token.
pub fn class_of<N: TypeNames>(names: &N, token: &Token) -> Class
    ensures { result ≡ class_of (N.holds names.now) token.now }
{
    match token.kind {
        TokenKind::Word => word_class(token.text.as_slice()),
        TokenKind::Ident => name_class(names.names_type(&token.text), token.text.as_slice()),
        TokenKind::Number(_) => number_class(token.text.as_slice()),
        TokenKind::Char(_) => Class::CharLiteral,
        TokenKind::Str => Class::StrLiteral,
        TokenKind::Punct => operator_class(token.text.as_slice()),
        TokenKind::End => Class::End,
    }
}

fn has_text(class: Class) -> bool
    ensures { result ≡ has_text class }
{
    matches!(
        class,
        Class::TypeName
            | Class::FinalType
            | Class::OverrideType
            | Class::Ident
            | Class::FinalIdent
            | Class::OverrideIdent
            | Class::StrLiteral
    )
}

fn text_kept(alloc: Global, class: Class, text: Text) -> Text
    ensures { result ≡ text_kept class text }
{
    if has_text(class) {
        text
    } else {
        Text::new(alloc)
    }
}

/// A token as the grammar sees it.
pub fn lexeme_of<N: TypeNames>(alloc: Global, names: &N, token: Token) -> Lexeme
    ensures { result ≡ lexeme_of (N.holds names.now) token }
{
    let class = class_of(names, &token);
    Lexeme {
        class,
        kind: token.kind,
        span: token.span,
        text: text_kept(alloc, class, token.text),
    }
}

/// The tokens as the grammar sees them.
pub fn lexemes<N: TypeNames>(
    alloc: Global,
    names: &N,
    tokens: List<Token>,
) -> Result<List<Lexeme>, Memory>
    ensures { IfOk result (λ found. found ≡ lexemes_of (N.holds names.now) tokens) }
{
    let mut found = List::new(alloc);
    for token in tokens.into_vec() {
        found.push(lexeme_of(alloc, names, token))?;
    }
    Ok(found)
}
