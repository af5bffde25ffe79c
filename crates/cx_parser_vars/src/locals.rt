//! Variables with the specifiers before them ([dcl.pre]).

ghost use Rattle.std.specs.Prelude.{◌≡◌};
ghost use Rattle.cx_grammar.specs.Reads.{Reads};
ghost use Rattle.cx_syntax_vars.specs.Readers as spec;

use crate::attributes::attrs;
use crate::specifiers::{TypeNext, specs_before};
use crate::variables::vars;
use cx_base::List;
use cx_grammar::{Cursor, ParseStop};
use cx_syntax::{Class, Lexeme, span_of};
use cx_tree::{Local, Specs, Var};
use std::alloc::Global;

fn vars_end(
    alloc: Global,
    tokens: &mut Cursor<'_, Lexeme>,
    left: usize,
) -> Result<List<Var>, ParseStop>
    ensures { Reads (spec.vars_end left tokens.old) result tokens.new }
{
    let vars = vars(alloc, tokens, left)?;
    tokens.expect(&Class::Semicolon)?;
    Ok(vars)
}

/// Specifiers, variables and `;` with so many levels left ([dcl.pre]).
#[inline(never)]
#[tactic(auto, unfolding(cx_syntax_vars::specs::Readers::declared))]
pub fn declared(
    alloc: Global,
    tokens: &mut Cursor<'_, Lexeme>,
    left: usize,
) -> Result<(Specs, List<Var>), ParseStop>
    ensures { Reads (spec.declared left tokens.old) result tokens.new }
{
    let specs = specs_before(alloc, tokens, &TypeNext)?;
    let vars = vars_end(alloc, tokens, left)?;
    Ok((specs, vars))
}

/// Variables of a block with so many levels left ([dcl.pre]).
#[inline(never)]
#[tactic(auto, unfolding(cx_syntax_vars::specs::Readers::local))]
pub fn local(
    alloc: Global,
    tokens: &mut Cursor<'_, Lexeme>,
    left: usize,
) -> Result<Local, ParseStop>
    ensures { Reads (spec.local left tokens.old) result tokens.new }
{
    let from = tokens.rest();
    let attrs = attrs(tokens, left)?;
    let (specs, vars) = declared(alloc, tokens, left)?;
    Ok(Local {
        attrs,
        specs,
        vars,
        span: span_of(tokens.since(from)),
    })
}

/// The same without attributes, as a `for` has them ([stmt.for]).
#[inline(never)]
#[tactic(auto, unfolding(cx_syntax_vars::specs::Readers::bare_local))]
pub fn bare_local(
    alloc: Global,
    tokens: &mut Cursor<'_, Lexeme>,
    left: usize,
) -> Result<Local, ParseStop>
    ensures { Reads (spec.bare_local left tokens.old) result tokens.new }
{
    let from = tokens.rest();
    let (specs, vars) = declared(alloc, tokens, left)?;
    Ok(Local {
        attrs: 0,
        specs,
        vars,
        span: span_of(tokens.since(from)),
    })
}
