//! What the tokens ahead tell: whether a type stands there or an expression ([dcl.ambig.res]).

ghost use Rattle.std.specs.Prelude.{◌≡◌, option_map};
ghost use Rattle.cx_grammar.specs.Reads.{Reads, tail_of};
ghost use Rattle.cx_grammar.specs.Reading as reading;
ghost use Rattle.cx_syntax.specs.Ahead as spec;

use crate::sets::{AnyName, AnyTypeWord, BeginsType, StartsGiven, Type};
use cx_grammar::{Cursor, Test};
use cx_syntax::{Class, Lexeme};

/// What stands behind the first token.
pub fn behind(tokens: &[Lexeme]) -> &[Lexeme]
    ensures { result.now ≡ tail_of tokens.now }
{
    match tokens {
        [_, rest @ ..] => rest,
        [] => tokens,
    }
}

/// Whether the first token is of a set.
pub fn sees<P: Test<Lexeme>>(set: &P, tokens: &[Lexeme]) -> bool
    ensures { result ≡ reading.sees (P.holds set.now) tokens.now }
{
    match tokens.first() {
        Some(token) => set.test(token),
        None => false,
    }
}

// What is left behind names with `::` behind each and a type's name, if they stand there.
fn names_end(tokens: &[Lexeme]) -> Option<&[Lexeme]>
    ensures { option_map (λ t. t.now) result ≡ spec.names_end tokens.now }
{
    let mut rest = tokens;
    while let [name, colons, others @ ..] = rest {
        if !(AnyName.test(name) && Class::ColonColon.test(colons)) {
            break;
        }
        rest = others;
    }
    match rest {
        [name, others @ ..] if Type.test(name) => Some(others),
        _ => None,
    }
}

/// What is left behind a type's name with what it is qualified by, if they stand there.
pub fn qtype_end(tokens: &[Lexeme]) -> Option<&[Lexeme]>
    ensures { option_map (λ t. t.now) result ≡ spec.qtype_end tokens.now }
{
    if sees(&Class::ColonColon, tokens) {
        names_end(behind(tokens))
    } else {
        names_end(tokens)
    }
}

/// Whether a type's name stands there, with what it is qualified by.
pub fn qtype_ahead(tokens: &[Lexeme]) -> bool
    ensures { result ≡ spec.qtype_ahead tokens.now }
{
    match qtype_end(tokens) {
        Some(_) => true,
        None => false,
    }
}

fn ends_bare(rest: Option<&[Lexeme]>) -> bool
    ensures { result ≡ spec.ends_bare (option_map (λ t. t.now) rest.entry) }
{
    match rest {
        Some(rest) => !sees(&StartsGiven, rest),
        None => false,
    }
}

/// Whether a type stands there, and no expression.
pub fn type_ahead(tokens: &[Lexeme]) -> bool
    ensures { result ≡ spec.type_ahead tokens.now }
{
    if sees(&BeginsType, tokens) {
        return true;
    }
    if sees(&AnyTypeWord, tokens) {
        return !sees(&StartsGiven, behind(tokens));
    }
    ends_bare(qtype_end(tokens))
}
