//! Jumps and expression statements ([stmt.jump], [stmt.expr]).

ghost use Rattle.std.specs.Prelude.{◌≡◌};
ghost use Rattle.cx_grammar.specs.Reads.{Reads};
ghost use Rattle.cx_parser_stmts.specs.Parts as parts;
ghost use Rattle.cx_syntax_stmts.specs.Readers as spec;

use crate::ahead::call_at;
use crate::exprs::place;
use cx_ahead::StartsClause;
use cx_base::Rule;
use cx_grammar::{Cursor, ParseStop};
use cx_parser::{braces, expr};
use cx_syntax::{Class, Lexeme};
use cx_tree::{Returned, StmtKind};
use sqlite_items::Boxed;
use std::alloc::Global;

// An expression that does not begin with a type and `(` ([stmt.ambig]).
#[inline(never)]
#[tactic(auto, unfolding(cx_syntax_stmts::specs::Readers::expr_stmt))]
fn expr_stmt(
    alloc: Global,
    tokens: &mut Cursor<'_, Lexeme>,
    left: usize,
) -> Result<StmtKind, ParseStop>
    ensures { Reads (spec.expr_stmt left tokens.old) result tokens.new }
{
    if let Some(from) = call_at(tokens.rest()) {
        return Err(ParseStop::Fault(Rule::Syntax, from));
    }
    let value = expr(alloc, tokens, left)?;
    tokens.expect(&Class::Semicolon)?;
    Ok(StmtKind::Expr(value.into_inner()))
}

#[inline(never)]
#[tactic(auto, unfolding(cx_syntax_stmts::specs::Readers::returned))]
fn maybe_returned(
    alloc: Global,
    tokens: &mut Cursor<'_, Lexeme>,
    left: usize,
) -> Result<Option<Boxed<Returned>>, ParseStop>
    ensures { Reads (parts.maybe_returned left tokens.old) result tokens.new }
{
    if !tokens.sees(&StartsClause) {
        Ok(None)
    } else if tokens.sees(&Class::OpenBrace) {
        let braces = braces(alloc, tokens, left)?;
        Ok(Some(Boxed::new(alloc, Returned::List(braces))?))
    } else {
        let value = expr(alloc, tokens, left)?;
        let value = value.into_inner();
        Ok(Some(Boxed::new(alloc, Returned::Value(value))?))
    }
}

#[inline(never)]
#[tactic(auto, unfolding(cx_syntax_stmts::specs::Readers::return_stmt))]
fn return_stmt(
    alloc: Global,
    tokens: &mut Cursor<'_, Lexeme>,
    left: usize,
) -> Result<StmtKind, ParseStop>
    ensures { Reads (spec.return_stmt left tokens.old) result tokens.new }
{
    tokens.expect(&Class::Return)?;
    let value = maybe_returned(alloc, tokens, left)?;
    tokens.expect(&Class::Semicolon)?;
    Ok(match value {
        Some(value) => StmtKind::Return(Some(value.into_inner())),
        None => StmtKind::Return(None),
    })
}

/// A jump or an expression, with its `;`, with so many levels left ([stmt.jump], [stmt.expr]).
#[inline(never)]
#[tactic(auto, unfolding(cx_syntax_stmts::specs::Readers::jump_stmt, cx_syntax_stmts::specs::Readers::break_stmt, cx_syntax_stmts::specs::Readers::continue_stmt))]
pub fn jump_stmt(
    alloc: Global,
    tokens: &mut Cursor<'_, Lexeme>,
    left: usize,
) -> Result<StmtKind, ParseStop>
    ensures { Reads (spec.jump_stmt left (spec.deeper left) tokens.old) result tokens.new }
{
    if tokens.sees(&Class::Break) {
        let word = place(tokens, Class::Break)?;
        tokens.expect(&Class::Semicolon)?;
        Ok(StmtKind::Break(word))
    } else if tokens.sees(&Class::Continue) {
        let word = place(tokens, Class::Continue)?;
        tokens.expect(&Class::Semicolon)?;
        Ok(StmtKind::Continue(word))
    } else if tokens.sees(&Class::Return) {
        return_stmt(alloc, tokens, left)
    } else {
        expr_stmt(alloc, tokens, left)
    }
}
