//! What stands in the parentheses of a `for` ([stmt.for], [stmt.ranged]).

ghost use Rattle.std.specs.Prelude.{◌≡◌, IfOk};
ghost use Rattle.cx_grammar.specs.Reads.{Reads};
ghost use Rattle.cx_parser_stmts.specs.Parts as parts;
ghost use Rattle.cx_syntax_stmts.specs.Readers as spec;

use crate::ahead::call_at;
use crate::exprs::{expr_below, maybe_expr, unboxed};
use cx_ahead::{Id, StartsAssign, type_ahead};
use cx_base::{Memory, Rule};
use cx_grammar::{Cursor, ParseStop};
use cx_parser_names::{ident, ptrs};
use cx_parser_vars::{TypeNext, bare_local, specs_before};
use cx_syntax::{Class, Lexeme};
use cx_syntax_stmts::ForHead;
use cx_tree::{Expr, ForStart, Ident, Ptrs, Specs};
use sqlite_items::Boxed;
use std::alloc::Global;

// ---- a `for` over a range

fn declarator(alloc: Global, tokens: &mut Cursor<'_, Lexeme>) -> Result<(Ptrs, Ident), ParseStop>
    ensures { Reads (spec.declarator tokens.old) result tokens.new }
{
    let ptrs = ptrs(alloc, tokens)?;
    let name = ident(alloc, tokens, &Id)?;
    Ok((ptrs, name))
}

#[inline(never)]
fn range_name(
    alloc: Global,
    tokens: &mut Cursor<'_, Lexeme>,
) -> Result<(Boxed<Specs>, (Ptrs, Ident)), ParseStop>
    ensures { Reads (spec.range_name tokens.old) result tokens.new }
{
    let specs = specs_before(alloc, tokens, &TypeNext)?;
    let specs = Boxed::new(alloc, specs)?;
    let declarator = declarator(alloc, tokens)?;
    Ok((specs, declarator))
}

// Whether `:` stands behind what was read.
fn sees_colon<T: Drop>(
    found: Result<T, ParseStop>,
    tokens: &Cursor<'_, Lexeme>,
) -> Result<bool, Memory>
    ensures { parts.ColonSeen found tokens.now result }
{
    match found {
        Ok(_) => Ok(tokens.sees(&Class::Colon)),
        Err(ParseStop::Fault(_, _)) => Ok(false),
        Err(ParseStop::Memory) => Err(Memory),
    }
}

// Whether the variable of a range stands there, with `:` behind it.
#[inline(never)]
#[tactic(auto, unfolding(cx_syntax_stmts::specs::Readers::range_ahead))]
fn range_ahead(alloc: Global, tokens: &[Lexeme]) -> Result<bool, Memory>
    ensures { IfOk result (λ b. b ≡ spec.range_ahead tokens.now) }
{
    if !type_ahead(tokens) {
        return Ok(false);
    }
    let mut ahead = Cursor::new(tokens);
    let found = range_name(alloc, &mut ahead);
    sees_colon(found, &ahead)
}

#[inline(never)]
#[tactic(auto, unfolding(cx_syntax_stmts::specs::Readers::for_range))]
fn for_range(
    alloc: Global,
    tokens: &mut Cursor<'_, Lexeme>,
    left: usize,
) -> Result<((Boxed<Specs>, (Ptrs, Ident)), Boxed<Expr>), ParseStop>
    ensures { Reads (spec.for_range left tokens.old) result tokens.new }
{
    let name = range_name(alloc, tokens)?;
    tokens.expect(&Class::Colon)?;
    let range = expr_below(alloc, tokens, left)?;
    Ok((name, range))
}

#[inline(never)]
fn range_head(
    alloc: Global,
    tokens: &mut Cursor<'_, Lexeme>,
    left: usize,
) -> Result<Boxed<ForHead>, ParseStop>
    ensures { Reads (parts.range_head left tokens.old) result tokens.new }
{
    let ((specs, (ptrs, name)), range) = for_range(alloc, tokens, left)?;
    let head = ForHead::Range(specs, ptrs, name, range);
    Ok(Boxed::new(alloc, head)?)
}

// ---- a `for` in steps

// An expression, if one begins there, that does not begin with a type and `(` ([dcl.ambig.res]).
#[inline(never)]
fn maybe_plain(
    alloc: Global,
    tokens: &mut Cursor<'_, Lexeme>,
    left: usize,
) -> Result<Option<Boxed<Expr>>, ParseStop>
    ensures { Reads (parts.maybe_plain left tokens.old) result tokens.new }
{
    if !tokens.sees(&StartsAssign) {
        return Ok(None);
    }
    if let Some(from) = call_at(tokens.rest()) {
        return Err(ParseStop::Fault(Rule::Syntax, from));
    }
    Ok(Some(expr_below(alloc, tokens, left)?))
}

#[inline(never)]
#[tactic(auto, unfolding(cx_syntax_stmts::specs::Readers::for_start))]
fn for_start(
    alloc: Global,
    tokens: &mut Cursor<'_, Lexeme>,
    left: usize,
) -> Result<Boxed<ForStart>, ParseStop>
    ensures { Reads (spec.for_start left tokens.old) result tokens.new }
{
    if type_ahead(tokens.rest()) {
        let local = bare_local(alloc, tokens, left)?;
        Ok(Boxed::new(alloc, ForStart::Local(local))?)
    } else {
        let first = maybe_plain(alloc, tokens, left)?;
        tokens.expect(&Class::Semicolon)?;
        Ok(Boxed::new(alloc, ForStart::Expr(unboxed(first)))?)
    }
}

// The condition and the step.
#[inline(never)]
fn steps_end(
    alloc: Global,
    tokens: &mut Cursor<'_, Lexeme>,
    left: usize,
) -> Result<(Option<Boxed<Expr>>, Option<Boxed<Expr>>), ParseStop>
    ensures { Reads (parts.steps_end left tokens.old) result tokens.new }
{
    let condition = maybe_expr(alloc, tokens, left)?;
    tokens.expect(&Class::Semicolon)?;
    let change = maybe_expr(alloc, tokens, left)?;
    Ok((condition, change))
}

#[inline(never)]
#[tactic(auto, unfolding(cx_syntax_stmts::specs::Readers::for_steps))]
fn steps_head(
    alloc: Global,
    tokens: &mut Cursor<'_, Lexeme>,
    left: usize,
) -> Result<Boxed<ForHead>, ParseStop>
    ensures { Reads (parts.steps_head left tokens.old) result tokens.new }
{
    let start = for_start(alloc, tokens, left)?;
    let (condition, change) = steps_end(alloc, tokens, left)?;
    let head = ForHead::Steps(start, condition, change);
    Ok(Boxed::new(alloc, head)?)
}

/// What stands in the parentheses of a `for` with so many levels left ([stmt.for], [stmt.ranged]).
#[inline(never)]
#[tactic(auto, unfolding(cx_syntax_stmts::specs::Readers::for_head))]
pub fn for_head(
    alloc: Global,
    tokens: &mut Cursor<'_, Lexeme>,
    left: usize,
) -> Result<Boxed<ForHead>, ParseStop>
    ensures { Reads (spec.for_head left tokens.old) result tokens.new }
{
    if range_ahead(alloc, tokens.rest())? {
        range_head(alloc, tokens, left)
    } else {
        steps_head(alloc, tokens, left)
    }
}
