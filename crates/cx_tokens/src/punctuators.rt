//! Operators and punctuators.
ghost use Rattle.std.specs.Prelude.{◌≡◌, ◌==◌};
ghost use Rattle.std.specs.List.{list_any};
ghost use Rattle.cx_tokens.specs.Bytes.{byte_at};
ghost use Rattle.cx_tokens.specs.Names.{is_among};
ghost use Rattle.cx_tokens.specs.Punctuators.{doubles, doubles_left_out, is_lone_less, punctuator, singles, triples, triples_left_out};
ghost use Rattle.cx_tokens.specs.Shapes.{shape_of};

use crate::TokenKind;
use crate::bytes::{byte_at, front_of};
use crate::names::is_among;
use crate::shapes::{Shape, broken};
use cx_base::Rule;

static DOUBLES: [&str; 20] = [
    "::", "->", "+=", "-=", "*=", "/=", "%=", "^=", "&=", "|=", "==", "!=", "<=", ">=", "&&", "||",
    "<<", ">>", "++", "--",
];

static TRIPLES: [&str; 2] = ["<<=", ">>="];

static DOUBLES_LEFT_OUT: [&str; 6] = [".*", "<:", ":>", "<%", "%>", "%:"];

static TRIPLES_LEFT_OUT: [&str; 3] = ["...", "->*", "<=>"];

#[tactic(auto, unfolding(crate::specs::Punctuators::singles))]
fn is_single(b: u8) -> bool
    ensures { result ≡ list_any (λ x. x == b) singles }
{
    match b {
        b'{'
        | b'}'
        | b'['
        | b']'
        | b'('
        | b')'
        | b';'
        | b':'
        | b','
        | b'.'
        | b'?'
        | b'~'
        | b'!'
        | b'+'
        | b'-'
        | b'*'
        | b'/'
        | b'%'
        | b'^'
        | b'&'
        | b'|'
        | b'='
        | b'<'
        | b'>' => true,
        _ => false,
    }
}

fn is_lone_less(rest: &[u8]) -> bool
    ensures { result ≡ is_lone_less rest.now }
{
    byte_at(rest, 0) == b'<'
        && (byte_at(rest, 1) == b':'
            && (byte_at(rest, 2) == b':'
                && !(byte_at(rest, 3) == b':' || byte_at(rest, 3) == b'>')))
}

#[tactic(auto, unfolding(crate::specs::Punctuators::doubles))]
fn is_double(text: &[u8]) -> bool
    ensures { result ≡ is_among doubles text.now }
{
    is_among(text, &DOUBLES)
}

#[tactic(auto, unfolding(crate::specs::Punctuators::triples))]
fn is_triple(text: &[u8]) -> bool
    ensures { result ≡ is_among triples text.now }
{
    is_among(text, &TRIPLES)
}

#[tactic(auto, unfolding(crate::specs::Punctuators::doubles_left_out))]
fn is_double_left_out(text: &[u8]) -> bool
    ensures { result ≡ is_among doubles_left_out text.now }
{
    is_among(text, &DOUBLES_LEFT_OUT)
}

#[tactic(auto, unfolding(crate::specs::Punctuators::triples_left_out))]
fn is_triple_left_out(text: &[u8]) -> bool
    ensures { result ≡ is_among triples_left_out text.now }
{
    is_among(text, &TRIPLES_LEFT_OUT)
}

#[tactic(auto, unfolding(crate::specs::Punctuators::punctuator))]
pub fn punctuator(rest: &[u8]) -> Shape
    ensures { result ≡ shape_of (punctuator rest.now) }
{
    let two = front_of(rest, 2);
    let three = front_of(rest, 3);
    if is_lone_less(rest) {
        Shape::Token(1, TokenKind::Punct)
    } else if is_triple(three) {
        Shape::Token(3, TokenKind::Punct)
    } else if is_triple_left_out(three) {
        broken(3, Rule::LeftOut)
    } else if is_double(two) {
        Shape::Token(2, TokenKind::Punct)
    } else if is_double_left_out(two) {
        broken(2, Rule::LeftOut)
    } else if is_single(byte_at(rest, 0)) {
        Shape::Token(1, TokenKind::Punct)
    } else {
        broken(1, Rule::BadByte)
    }
}
