//! Initializers ([dcl.init]).

ghost use Rattle.std.specs.Prelude.{◌≡◌};
ghost use Rattle.cx_grammar.specs.Reads.{Reads};
ghost use Rattle.cx_parser_vars.specs.Parts as parts;
ghost use Rattle.cx_syntax_vars.specs.Ahead as ahead;
ghost use Rattle.cx_syntax_vars.specs.Readers as spec;

use crate::below::room;
use cx_ahead::{AnyTypeWord, StartsAssign, behind, qtype_end, sees};
use cx_base::Rule;
use cx_grammar::{Cursor, ParseStop, Test};
use cx_parser::{assign, braces, paren_args};
use cx_syntax::{Class, Lexeme, span_of};
use cx_tree::{Args, Init, InitKind};
use std::alloc::Global;

/// What an initializer begins with.
pub struct StartsInit;

impl Test<Lexeme> for StartsInit {
    ghost use Rattle.cx_syntax.specs.Classes.{class_at};
    ghost use Rattle.cx_syntax_vars.specs.Sets.{starts_init};

    ghost holds = { λ _ t. starts_init (class_at t) };

    fn test(&self, token: &Lexeme) -> bool {
        matches!(
            token.class,
            Class::Equal | Class::OpenBrace | Class::OpenParen
        )
    }
}

#[inline(never)]
#[tactic(auto, unfolding(cx_syntax_vars::specs::Readers::equals_value))]
fn equals_value(
    alloc: Global,
    tokens: &mut Cursor<'_, Lexeme>,
    left: usize,
) -> Result<InitKind, ParseStop>
    ensures { Reads (spec.equals_value left tokens.old) result tokens.new }
{
    if tokens.sees(&Class::OpenBrace) {
        Ok(InitKind::EqualsList(braces(alloc, tokens, left)?))
    } else {
        Ok(InitKind::Equals(assign(alloc, tokens, left)?.into_inner()))
    }
}

// How many tokens are left where a list begins with a word, or behind a type's name at its start.
fn type_made_at(tokens: &[Lexeme]) -> Option<usize>
    ensures { result ≡ ahead.type_made_at tokens.now }
{
    if sees(&AnyTypeWord, tokens) {
        return Some(tokens.len());
    }
    match qtype_end(tokens) {
        Some([]) | None => None,
        Some(rest) => Some(rest.len()),
    }
}

// The same behind `(`, or where no argument begins: so many tokens are left from the fault on.
fn refused_at(tokens: &[Lexeme]) -> Option<usize>
    ensures { result ≡ parts.refused_at tokens.now }
{
    if !sees(&Class::OpenParen, tokens) {
        return None;
    }
    let inside = behind(tokens);
    let made = type_made_at(inside);
    if made.is_none() && !sees(&StartsAssign, inside) {
        return Some(inside.len());
    }
    made
}

#[inline(never)]
fn paren_init(
    alloc: Global,
    tokens: &mut Cursor<'_, Lexeme>,
    left: usize,
) -> Result<Args, ParseStop>
    ensures { Reads (spec.paren_init left tokens.old) result tokens.new }
{
    if !room(left) {
        return Err(tokens.too_deep());
    }
    if let Some(fault) = refused_at(tokens.rest()) {
        return Err(ParseStop::Fault(Rule::Syntax, fault));
    }
    paren_args(alloc, tokens, left)
}

#[inline(never)]
#[tactic(auto, unfolding(cx_syntax_vars::specs::Readers::init_kind))]
fn init_kind(
    alloc: Global,
    tokens: &mut Cursor<'_, Lexeme>,
    left: usize,
) -> Result<InitKind, ParseStop>
    ensures { Reads (spec.init_kind left tokens.old) result tokens.new }
{
    if tokens.sees(&Class::OpenParen) {
        Ok(InitKind::Direct(paren_init(alloc, tokens, left)?))
    } else if tokens.sees(&Class::Equal) {
        tokens.expect(&Class::Equal)?;
        equals_value(alloc, tokens, left)
    } else {
        Ok(InitKind::DirectList(braces(alloc, tokens, left)?))
    }
}

/// An initializer with so many levels left ([dcl.init]).
#[inline(never)]
#[tactic(auto, unfolding(cx_syntax_vars::specs::Readers::init))]
pub fn init(alloc: Global, tokens: &mut Cursor<'_, Lexeme>, left: usize) -> Result<Init, ParseStop>
    ensures { Reads (spec.init left tokens.old) result tokens.new }
{
    let from = tokens.rest();
    let kind = init_kind(alloc, tokens, left)?;
    Ok(Init {
        kind,
        span: span_of(tokens.since(from)),
    })
}
