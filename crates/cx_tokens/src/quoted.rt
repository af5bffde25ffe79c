//! Character and string literals as a whole.
ghost use Rattle.std.specs.Prelude.{◌≡◌, ◌≤◌, length};
ghost use Rattle.std.specs.Option.{option_or};
ghost use Rattle.cx_tokens.specs.Literals.{char_of, inner_size, is_closed, is_whole, literal_kind, literal_size, own_rule, quoted, quoted_at};
ghost use Rattle.cx_tokens.specs.Pieces.{token};
ghost use Rattle.cx_tokens.specs.Shapes.{either, own_flaw, shape_of, shape_with};

use crate::TokenKind;
use crate::bytes::{begins_name, byte_at, rest_from};
use crate::literals::{Look, first_flaw, inner_size, is_one_character, part_value};
use crate::shapes::{Flaw, Shape};
use cx_base::Rule;

fn char_of(b: u8) -> i8
    ensures { result ≡ char_of b }
{
    if b < 128 {
        b as i8
    } else {
        (i16::from(b) - 256) as i8
    }
}

fn either(first: Option<Flaw>, second: Option<Flaw>) -> Option<Flaw>
    ensures { result ≡ either first second }
{
    match first {
        None => second,
        Some(f) => match second {
            None => Some(f),
            Some(g) => { if g.start < f.start { Some(g) } else { Some(f) } }
        },
    }
}

fn own_flaw(whole: bool, behind: bool, size: usize, rule: Rule) -> Option<Flaw>
    ensures { result ≡ own_flaw whole behind size rule }
{
    let rule = if whole { Rule::LeftOut } else { rule };
    if whole && !behind {
        None
    } else {
        Some(Flaw {
            start: 0,
            size,
            rule,
        })
    }
}

fn shape_with(flaw: Option<Flaw>, size: usize, kind: TokenKind) -> Shape
    ensures { result ≡ shape_with flaw (token size kind) }
{
    match flaw {
        Some(flaw) => Shape::Faulty(size, flaw),
        None => Shape::Token(size, kind),
    }
}

fn or(first: Option<Flaw>, second: Option<Flaw>) -> Option<Flaw>
    ensures { result ≡ option_or first second }
{
    match first {
        Some(flaw) => Some(flaw),
        None => second,
    }
}

fn own_rule(quote: u8) -> Rule
    ensures { result ≡ own_rule quote }
{
    if quote == b'"' {
        Rule::OpenString
    } else {
        Rule::BadCharacter
    }
}

#[tactic(auto, unfolding(crate::specs::Literals::is_closed))]
fn is_closed(quote: u8, body: &[u8], inner: usize) -> bool
    requires { inner ≡ inner_size quote body.now }
    ensures { result ≡ is_closed quote body.now }
{
    byte_at(body, inner) == quote
}

#[tactic(auto, unfolding(crate::specs::Literals::literal_size))]
fn literal_size(quote: u8, body: &[u8], inner: usize) -> usize
    requires size { inner ≡ inner_size quote body.now }
    requires within { inner ≤ length body.now }
    ensures { result ≡ literal_size quote body.now }
{
    if is_closed(quote, body, inner) {
        1 + inner + 1
    } else {
        1 + inner
    }
}

#[tactic(auto, unfolding(crate::specs::Literals::is_whole))]
fn is_whole(quote: u8, body: &[u8], inner: usize) -> bool
    requires { inner ≡ inner_size quote body.now }
    ensures { result ≡ is_whole quote body.now }
{
    if quote == b'"' {
        is_closed(quote, body, inner)
    } else {
        is_one_character(body)
    }
}

#[tactic(auto, unfolding(crate::specs::Literals::literal_kind))]
fn literal_kind(quote: u8, body: &[u8]) -> TokenKind
    ensures { result ≡ literal_kind quote body.now }
{
    if quote == b'"' {
        TokenKind::Str
    } else {
        TokenKind::Char(char_of(part_value(body)))
    }
}

#[tactic(auto, using(crate::proofs::EachFlaw::quoted_is))]
fn quoted_at(quote: u8, body: &[u8]) -> Shape
    ensures { result ≡ shape_of (quoted_at quote body.now) }
{
    let inner = inner_size(quote, body);
    let size = literal_size(quote, body, inner);
    let whole = is_whole(quote, body, inner);
    let behind = begins_name(byte_at(body, size.saturating_sub(1)));
    let own = own_flaw(whole, behind, size, own_rule(quote));
    let escape = first_flaw(Look::Escapes, quote, body);
    let byte = first_flaw(Look::Bytes, quote, body);
    shape_with(
        either(or(escape, own), byte),
        size,
        literal_kind(quote, body),
    )
}

#[tactic(auto, unfolding(crate::specs::Literals::quoted))]
pub fn quoted(rest: &[u8]) -> Shape
    ensures { result ≡ shape_of (quoted rest.now) }
{
    quoted_at(byte_at(rest, 0), rest_from(rest, 1))
}
