//! Typedefs ([dcl.typedef]).

ghost use Rattle.std.specs.Prelude.{◌≡◌};
ghost use Rattle.cx_grammar.specs.Reads.{Reads};
ghost use Rattle.cx_syntax_vars.specs.Readers as spec;

use crate::specifiers::{AliasedNext, specs_before};
use cx_ahead::Type;
use cx_grammar::{Cursor, ParseStop};
use cx_parser_names::{ident, ptrs};
use cx_syntax::{Class, Lexeme, span_of};
use cx_tree::{Ident, Ptrs, Typedef};
use std::alloc::Global;

// What stands behind the specifiers.
fn typedef_end(alloc: Global, tokens: &mut Cursor<'_, Lexeme>) -> Result<(Ptrs, Ident), ParseStop>
    ensures { Reads (spec.typedef_end tokens.old) result tokens.new }
{
    let ptrs = ptrs(alloc, tokens)?;
    let name = ident(alloc, tokens, &Type)?;
    tokens.expect(&Class::Semicolon)?;
    Ok((ptrs, name))
}

/// `typedef` ([dcl.typedef]).
#[inline(never)]
#[tactic(auto, unfolding(cx_syntax_vars::specs::Readers::typedef))]
pub fn typedef(alloc: Global, tokens: &mut Cursor<'_, Lexeme>) -> Result<Typedef, ParseStop>
    ensures { Reads (spec.typedef tokens.old) result tokens.new }
{
    let from = tokens.rest();
    tokens.expect(&Class::Typedef)?;
    let specs = specs_before(alloc, tokens, &AliasedNext)?;
    let (ptrs, name) = typedef_end(alloc, tokens)?;
    Ok(Typedef {
        specs,
        ptrs,
        name,
        span: span_of(tokens.since(from)),
    })
}
