//! Names ([expr.prim.id], [dcl.type.simple]).

ghost use Rattle.std.specs.Prelude.{◌≡◌};
ghost use Rattle.cx_grammar.specs.Reads.{Reads};
ghost use Rattle.cx_parser_names.specs.Parts as parts;
ghost use Rattle.cx_syntax.specs.Readers as spec;
ghost use Rattle.cx_syntax.specs.Values as values;

use cx_ahead::{AnyName, AnyString, Id, OverloadedIn, StartsLast, Type};
use cx_base::{List, Text};
use cx_grammar::{Cursor, ParseStop, Test};
use cx_syntax::{Class, Lexeme, span_of};
use cx_tree::{DestructorName, FunctionName, Ident, Last, OperatorName, Overloaded, TypeName};
use std::alloc::Global;

/// A name of a set.
pub fn ident<P: Test<Lexeme>>(
    alloc: Global,
    tokens: &mut Cursor<'_, Lexeme>,
    set: &P,
) -> Result<Ident, ParseStop>
    ensures { Reads (parts.ident_in (P.holds set.now) tokens.old) result tokens.new }
{
    let Some(token) = tokens.peek() else {
        return Err(tokens.refuse());
    };
    if !set.test(token) {
        return Err(tokens.refuse());
    }
    let text = token.text.copy()?;
    tokens.advance();
    Ok(Ident {
        text,
        span: token.span,
    })
}

/// A string's text.
pub fn piece(tokens: &mut Cursor<'_, Lexeme>) -> Result<Text, ParseStop>
    ensures { Reads (parts.piece tokens.old) result tokens.new }
{
    let Some(token) = tokens.peek() else {
        return Err(tokens.refuse());
    };
    if !AnyString.test(token) {
        return Err(tokens.refuse());
    }
    let text = token.text.copy()?;
    tokens.advance();
    Ok(text)
}

/// A token that may be left out.
pub fn maybe_one(tokens: &mut Cursor<'_, Lexeme>, class: Class) -> Result<Option<()>, ParseStop>
    ensures { Reads (parts.maybe_one class tokens.old) result tokens.new }
{
    if !tokens.sees(&class) {
        return Ok(None);
    }
    tokens.expect(&class)?;
    Ok(Some(()))
}

/// Whether it was there.
pub fn is_there(found: Option<()>) -> bool
    ensures { result ≡ values.is_there found }
{
    match found {
        Some(()) => true,
        None => false,
    }
}

#[tactic(auto, unfolding(cx_syntax::specs::Readers::op))]
fn op(tokens: &mut Cursor<'_, Lexeme>) -> Result<Overloaded, ParseStop>
    ensures { Reads (spec.op tokens.old) result tokens.new }
{
    if tokens.sees(&Class::OpenParen) {
        tokens.expect(&Class::OpenParen)?;
        tokens.expect(&Class::CloseParen)?;
        return Ok(Overloaded::Call);
    }
    if tokens.sees(&Class::OpenBracket) {
        tokens.expect(&Class::OpenBracket)?;
        tokens.expect(&Class::CloseBracket)?;
        return Ok(Overloaded::Subscript);
    }
    tokens.take(&OverloadedIn)
}

fn operator_name(tokens: &mut Cursor<'_, Lexeme>) -> Result<OperatorName, ParseStop>
    ensures { Reads (spec.operator_name tokens.old) result tokens.new }
{
    let from = tokens.rest();
    tokens.expect(&Class::Operator)?;
    let operator = op(tokens)?;
    Ok(OperatorName {
        operator,
        span: span_of(tokens.since(from)),
    })
}

/// A destructor's name ([class.dtor]).
#[inline(never)]
pub fn destructor_name(
    alloc: Global,
    tokens: &mut Cursor<'_, Lexeme>,
) -> Result<DestructorName, ParseStop>
    ensures { Reads (spec.destructor_name tokens.old) result tokens.new }
{
    let from = tokens.rest();
    tokens.expect(&Class::Tilde)?;
    let class = ident(alloc, tokens, &Type)?;
    Ok(DestructorName {
        class,
        span: span_of(tokens.since(from)),
    })
}

#[tactic(auto, unfolding(cx_syntax::specs::Readers::last_part))]
fn last_part(alloc: Global, tokens: &mut Cursor<'_, Lexeme>) -> Result<Last, ParseStop>
    ensures { Reads (spec.last_part tokens.old) result tokens.new }
{
    if tokens.sees(&Id) {
        return Ok(Last::Ident(ident(alloc, tokens, &Id)?));
    }
    Ok(Last::Operator(operator_name(tokens)?))
}

fn scope(alloc: Global, tokens: &mut Cursor<'_, Lexeme>) -> Result<Ident, ParseStop>
    ensures { Reads (spec.scope tokens.old) result tokens.new }
{
    let name = ident(alloc, tokens, &AnyName)?;
    tokens.expect(&Class::ColonColon)?;
    Ok(name)
}

/// Names with `::` behind each.
#[inline(never)]
pub fn scopes(alloc: Global, tokens: &mut Cursor<'_, Lexeme>) -> Result<List<Ident>, ParseStop>
    ensures { Reads (parts.scopes tokens.old) result tokens.new }
{
    let mut found = List::new(alloc);
    while tokens.sees_two(&AnyName, &Class::ColonColon) {
        found.push(scope(alloc, tokens)?)?;
    }
    Ok(found)
}

/// What a function's or variable's name is qualified by, and its last part.
pub fn fname_parts(
    alloc: Global,
    tokens: &mut Cursor<'_, Lexeme>,
) -> Result<(List<Ident>, Last), ParseStop>
    ensures { Reads (spec.fname_parts tokens.old) result tokens.new }
{
    let scopes = scopes(alloc, tokens)?;
    if tokens.sees(&AnyName) && !tokens.sees(&StartsLast) {
        tokens.advance();
        return Err(tokens.refuse());
    }
    let last = last_part(alloc, tokens)?;
    Ok((scopes, last))
}

/// A function's or variable's name, with what it is qualified by.
#[inline(never)]
#[tactic(auto, unfolding(cx_syntax::specs::Readers::fname))]
pub fn fname(alloc: Global, tokens: &mut Cursor<'_, Lexeme>) -> Result<FunctionName, ParseStop>
    ensures { Reads (spec.fname tokens.old) result tokens.new }
{
    let from = tokens.rest();
    let (scopes, last) = fname_parts(alloc, tokens)?;
    Ok(FunctionName {
        global: false,
        scopes,
        last,
        span: span_of(tokens.since(from)),
    })
}

fn type_names(
    alloc: Global,
    tokens: &mut Cursor<'_, Lexeme>,
) -> Result<(List<Ident>, Ident), ParseStop>
    ensures { Reads (spec.type_names tokens.old) result tokens.new }
{
    let scopes = scopes(alloc, tokens)?;
    if tokens.sees(&AnyName) && !tokens.sees(&Type) {
        tokens.advance();
        return Err(tokens.refuse());
    }
    let name = ident(alloc, tokens, &Type)?;
    Ok((scopes, name))
}

/// A type's name, with what it is qualified by.
#[inline(never)]
#[tactic(auto, unfolding(cx_syntax::specs::Readers::qtype))]
pub fn qtype(alloc: Global, tokens: &mut Cursor<'_, Lexeme>) -> Result<TypeName, ParseStop>
    ensures { Reads (spec.qtype tokens.old) result tokens.new }
{
    let from = tokens.rest();
    let colons = maybe_one(tokens, Class::ColonColon)?;
    let (scopes, name) = type_names(alloc, tokens)?;
    Ok(TypeName {
        global: is_there(colons),
        scopes,
        name,
        span: span_of(tokens.since(from)),
    })
}
