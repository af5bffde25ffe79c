//! Parameters ([dcl.fct]).

ghost use Rattle.std.specs.Prelude.{◌≡◌};
ghost use Rattle.cx_grammar.specs.Reads.{Reads};
ghost use Rattle.cx_parser_vars.specs.Parts as parts;
ghost use Rattle.cx_syntax_vars.specs.Readers as spec;

use crate::attributes::attrs;
use crate::below::{assign_below, room};
use crate::specifiers::{TypeNext, specs_before};
use cx_ahead::Id;
use cx_base::List;
use cx_grammar::{Cursor, ParseStop, Part};
use cx_parser::bounds;
use cx_parser_names::{ident, ptrs, read_more};
use cx_syntax::{Class, Lexeme, span_of};
use cx_tree::{Expr, Ident, Param};
use std::alloc::Global;

#[inline(never)]
#[tactic(auto, unfolding(cx_syntax_vars::specs::Readers::default_argument))]
fn maybe_default(
    alloc: Global,
    tokens: &mut Cursor<'_, Lexeme>,
    left: usize,
) -> Result<Option<Expr>, ParseStop>
    ensures { Reads (spec.maybe_default left tokens.old) result tokens.new }
{
    if !tokens.sees(&Class::Equal) {
        return Ok(None);
    }
    if !room(left) {
        return Err(tokens.too_deep());
    }
    tokens.expect(&Class::Equal)?;
    Ok(Some(assign_below(alloc, tokens, left)?.into_inner()))
}

fn maybe_id(alloc: Global, tokens: &mut Cursor<'_, Lexeme>) -> Result<Option<Ident>, ParseStop>
    ensures { Reads (parts.maybe_id tokens.old) result tokens.new }
{
    if !tokens.sees(&Id) {
        return Ok(None);
    }
    Ok(Some(ident(alloc, tokens, &Id)?))
}

/// A parameter with so many levels left ([dcl.fct]).
#[inline(never)]
#[tactic(auto, unfolding(cx_syntax_vars::specs::Readers::param))]
pub fn param(
    alloc: Global,
    tokens: &mut Cursor<'_, Lexeme>,
    left: usize,
) -> Result<Param, ParseStop>
    ensures { Reads (spec.param left tokens.old) result tokens.new }
{
    let from = tokens.rest();
    let attrs = attrs(tokens, left)?;
    let specs = specs_before(alloc, tokens, &TypeNext)?;
    let ptrs = ptrs(alloc, tokens)?;
    let name = maybe_id(alloc, tokens)?;
    let bounds = bounds(alloc, tokens, left)?;
    let default = maybe_default(alloc, tokens, left)?;
    Ok(Param {
        attrs,
        specs,
        ptrs,
        name,
        bounds,
        default,
        span: span_of(tokens.since(from)),
    })
}

// A comma and a parameter, as a part that a loop reads.
#[derive(Drop)]
struct OtherParam {
    alloc: Global,
    left: usize,
}

impl Part<Lexeme> for OtherParam {
    type Value = Param;

    ghost ready = { λ _. Unit {0} };

    ghost reader = { λ s. spec.other_param s.left };

    fn read(&self, tokens: &mut Cursor<'_, Lexeme>) -> Result<Param, ParseStop> {
        tokens.expect(&Class::Comma)?;
        param(self.alloc, tokens, self.left)
    }
}

/// Parameters with so many levels left, commas between them ([dcl.fct]).
#[inline(never)]
#[tactic(auto, unfolding(cx_syntax_vars::specs::Readers::params))]
pub fn params(
    alloc: Global,
    tokens: &mut Cursor<'_, Lexeme>,
    left: usize,
) -> Result<List<Param>, ParseStop>
    ensures { Reads (spec.params left tokens.old) result tokens.new }
{
    let mut first = List::new(alloc);
    first.push(param(alloc, tokens, left)?)?;
    read_more(tokens, first, &Class::Comma, &OtherParam { alloc, left })
}
