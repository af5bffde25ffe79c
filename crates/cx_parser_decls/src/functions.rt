//! Functions ([dcl.fct], [dcl.fct.def]).

ghost use Rattle.std.specs.Prelude.{◌≡◌};
ghost use Rattle.cx_grammar.specs.Reads.{Reads};
ghost use Rattle.cx_syntax_decls.specs.Readers as spec;

use crate::sets::StartsParam;
use cx_base::List;
use cx_grammar::{Cursor, ParseStop};
use cx_parser_names::{fname, is_there, maybe_one, or_none, ptrs};
use cx_parser_stmts::block;
use cx_parser_vars::{StartsTail, noex, params, tail, virt};
use cx_syntax::{Class, Lexeme};
use cx_tree::{Body, Function, FunctionName, Param, Virtual};
use std::alloc::Global;

/// The levels of `noexcept`, the words behind it, and the body.
pub type NoexEnd = (u32, (List<Virtual>, Body));

/// Parameters, `const`, and what stands behind them.
type ParamsEnd = (Option<List<Param>>, (Option<()>, NoexEnd));

fn maybe_params(
    alloc: Global,
    tokens: &mut Cursor<'_, Lexeme>,
    left: usize,
) -> Result<Option<List<Param>>, ParseStop>
    ensures { Reads (spec.maybe_params left tokens.old) result tokens.new }
{
    if !tokens.sees(&StartsParam) {
        return Ok(None);
    }
    Ok(Some(params(alloc, tokens, left)?))
}

/// Parameters in parentheses, perhaps none ([dcl.fct]).
#[tactic(auto, unfolding(cx_syntax_decls::specs::Readers::paren_params))]
pub fn paren_params(
    alloc: Global,
    tokens: &mut Cursor<'_, Lexeme>,
    left: usize,
) -> Result<Option<List<Param>>, ParseStop>
    ensures { Reads (spec.paren_params left tokens.old) result tokens.new }
{
    tokens.expect(&Class::OpenParen)?;
    let found = maybe_params(alloc, tokens, left)?;
    tokens.expect(&Class::CloseParen)?;
    Ok(found)
}

#[tactic(auto, unfolding(cx_syntax_decls::specs::Readers::body))]
fn body(alloc: Global, tokens: &mut Cursor<'_, Lexeme>, left: usize) -> Result<Body, ParseStop>
    ensures { Reads (spec.body left tokens.old) result tokens.new }
{
    if tokens.sees(&StartsTail) {
        Ok(Body::Tail(tail(tokens)?))
    } else {
        Ok(Body::Block(block(alloc, tokens, left)?))
    }
}

/// `noexcept`, the words behind it, and the body ([dcl.fct.def]).
pub fn noex_end(
    alloc: Global,
    tokens: &mut Cursor<'_, Lexeme>,
    left: usize,
) -> Result<NoexEnd, ParseStop>
    ensures { Reads (spec.noex_end left tokens.old) result tokens.new }
{
    let levels = noex(tokens, left)?;
    let words = virt(alloc, tokens)?;
    let body = body(alloc, tokens, left)?;
    Ok((levels, (words, body)))
}

#[tactic(auto, unfolding(cx_syntax_decls::specs::Readers::function_end))]
fn params_end(
    alloc: Global,
    tokens: &mut Cursor<'_, Lexeme>,
    left: usize,
) -> Result<ParamsEnd, ParseStop>
    ensures { Reads (spec.params_end left tokens.old) result tokens.new }
{
    let params = paren_params(alloc, tokens, left)?;
    let word = maybe_one(tokens, Class::Const)?;
    let end = noex_end(alloc, tokens, left)?;
    Ok((params, (word, end)))
}

fn fname_end(
    alloc: Global,
    tokens: &mut Cursor<'_, Lexeme>,
    left: usize,
) -> Result<(FunctionName, ParamsEnd), ParseStop>
    ensures { Reads (spec.fname_end left tokens.old) result tokens.new }
{
    let name = fname(alloc, tokens)?;
    let end = params_end(alloc, tokens, left)?;
    Ok((name, end))
}

/// A function behind its specifiers ([dcl.fct]).
#[inline(never)]
#[tactic(auto, unfolding(cx_syntax_decls::specs::Readers::function))]
pub fn function(
    alloc: Global,
    tokens: &mut Cursor<'_, Lexeme>,
    left: usize,
) -> Result<Function, ParseStop>
    ensures { Reads (spec.function left tokens.old) result tokens.new }
{
    let ptrs = ptrs(alloc, tokens)?;
    let (name, (params, (word, (noexcept, (virtuals, body))))) = fname_end(alloc, tokens, left)?;
    Ok(Function {
        ptrs,
        name,
        params: or_none(alloc, params),
        is_const: is_there(word),
        noexcept,
        virtuals,
        body,
    })
}
