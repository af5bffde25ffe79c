//! Variables ([dcl.decl]).

ghost use Rattle.std.specs.Prelude.{◌≡◌};
ghost use Rattle.cx_grammar.specs.Reads.{Reads};
ghost use Rattle.cx_syntax_vars.specs.Readers as spec;

use crate::attributes::{attribute, counted};
use crate::inits::{StartsInit, init};
use cx_ahead::Id;
use cx_base::List;
use cx_grammar::{Cursor, ParseStop, Part};
use cx_parser::bounds;
use cx_parser_names::{ident, ptrs, read_more};
use cx_syntax::{Class, Lexeme, span_of};
use cx_tree::{Init, Var};
use std::alloc::Global;

// Attributes behind a name: `[` with no other behind it is a bound's.
#[inline(never)]
fn name_attrs(tokens: &mut Cursor<'_, Lexeme>, left: usize) -> Result<u32, ParseStop>
    ensures { Reads (spec.name_attrs left tokens.old) result tokens.new }
{
    let mut most: usize = 0;
    while tokens.sees_two(&Class::OpenBracket, &Class::OpenBracket) {
        most = most.max(attribute(tokens, left)?);
    }
    counted(most)
}

fn maybe_init(
    alloc: Global,
    tokens: &mut Cursor<'_, Lexeme>,
    left: usize,
) -> Result<Option<Init>, ParseStop>
    ensures { Reads (spec.maybe_init left tokens.old) result tokens.new }
{
    if !tokens.sees(&StartsInit) {
        return Ok(None);
    }
    Ok(Some(init(alloc, tokens, left)?))
}

/// A variable with so many levels left ([dcl.decl]).
#[inline(never)]
#[tactic(auto, unfolding(cx_syntax_vars::specs::Readers::var))]
pub fn var(alloc: Global, tokens: &mut Cursor<'_, Lexeme>, left: usize) -> Result<Var, ParseStop>
    ensures { Reads (spec.var left tokens.old) result tokens.new }
{
    let from = tokens.rest();
    let ptrs = ptrs(alloc, tokens)?;
    let name = ident(alloc, tokens, &Id)?;
    let attrs = name_attrs(tokens, left)?;
    let bounds = bounds(alloc, tokens, left)?;
    let init = maybe_init(alloc, tokens, left)?;
    Ok(Var {
        ptrs,
        name,
        attrs,
        bounds,
        init,
        span: span_of(tokens.since(from)),
    })
}

// A comma and a variable, as a part that a loop reads.
#[derive(Drop)]
struct OtherVar {
    alloc: Global,
    left: usize,
}

impl Part<Lexeme> for OtherVar {
    type Value = Var;

    ghost ready = { λ _. Unit {0} };

    ghost reader = { λ s. spec.other_var s.left };

    fn read(&self, tokens: &mut Cursor<'_, Lexeme>) -> Result<Var, ParseStop> {
        tokens.expect(&Class::Comma)?;
        var(self.alloc, tokens, self.left)
    }
}

/// Variables with so many levels left, commas between them ([dcl.decl]).
#[inline(never)]
#[tactic(auto, unfolding(cx_syntax_vars::specs::Readers::vars))]
pub fn vars(
    alloc: Global,
    tokens: &mut Cursor<'_, Lexeme>,
    left: usize,
) -> Result<List<Var>, ParseStop>
    ensures { Reads (spec.vars left tokens.old) result tokens.new }
{
    let mut first = List::new(alloc);
    first.push(var(alloc, tokens, left)?)?;
    read_more(tokens, first, &Class::Comma, &OtherVar { alloc, left })
}
