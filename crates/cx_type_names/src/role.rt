//! What single tokens are to the names of types.
ghost use Rattle.std.specs.Prelude.{◌≡◌};
ghost use Rattle.std.specs.Str.{bytes_eq};
ghost use Rattle.cx_type_names.specs.Roles as spec;

use cx_token_defs::{Token, TokenKind};

/// A kind of brackets.
#[derive(Clone, Copy, Debug, PartialEq, Eq)]
pub enum Bracket {
    Round,
    Square,
    Curly,
}

/// What a token is to the names of types.
#[derive(Clone, Copy, Debug, PartialEq, Eq)]
pub enum Role {
    Opens(Bracket),
    Closes(Bracket),
    /// `struct`, `class`, `union` or `enum`.
    Key,
    Using,
    Typedef,
    Equals,
    Semicolon,
    /// An identifier.
    Name,
    End,
    Other,
}

/// The brackets are of one kind.
pub fn same(one: Bracket, other: Bracket) -> bool
    ensures { result ≡ spec.same_bracket one other }
{
    matches!(
        (one, other),
        (Bracket::Round, Bracket::Round)
            | (Bracket::Square, Bracket::Square)
            | (Bracket::Curly, Bracket::Curly)
    )
}

fn is_spelled(text: &[u8], spelling: &[u8]) -> bool
    ensures { result ≡ bytes_eq text.now spelling.now }
{
    text == spelling
}

fn word_role(text: &[u8]) -> Role
    ensures { result ≡ spec.word_role text.now }
{
    if is_spelled(text, b"struct")
        || (is_spelled(text, b"class")
            || (is_spelled(text, b"union") || is_spelled(text, b"enum")))
    {
        Role::Key
    } else if is_spelled(text, b"using") {
        Role::Using
    } else if is_spelled(text, b"typedef") {
        Role::Typedef
    } else {
        Role::Other
    }
}

fn mark_role(text: &[u8]) -> Role
    ensures { result ≡ spec.mark_role text.now }
{
    if is_spelled(text, b"(") {
        Role::Opens(Bracket::Round)
    } else if is_spelled(text, b"[") {
        Role::Opens(Bracket::Square)
    } else if is_spelled(text, b"{") {
        Role::Opens(Bracket::Curly)
    } else if is_spelled(text, b")") {
        Role::Closes(Bracket::Round)
    } else if is_spelled(text, b"]") {
        Role::Closes(Bracket::Square)
    } else if is_spelled(text, b"}") {
        Role::Closes(Bracket::Curly)
    } else if is_spelled(text, b"=") {
        Role::Equals
    } else if is_spelled(text, b";") {
        Role::Semicolon
    } else {
        Role::Other
    }
}

#[tactic(auto, unfolding(crate::specs::Roles::role_of))]
/// What the token is to the names of types.
pub fn role_of(token: &Token) -> Role
    ensures { result ≡ spec.role_of token.now }
{
    match token.kind {
        TokenKind::Word => word_role(token.text.as_slice()),
        TokenKind::Punct => mark_role(token.text.as_slice()),
        TokenKind::Ident => Role::Name,
        TokenKind::End => Role::End,
        _ => Role::Other,
    }
}
