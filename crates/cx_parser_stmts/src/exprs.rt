//! Single tokens and expressions, as the rules of statements have them.

ghost use Rattle.std.specs.Prelude.{◌≡◌};
ghost use Rattle.cx_grammar.specs.Reads.{Reads};
ghost use Rattle.cx_syntax.specs.Readers.{deeper};
ghost use Rattle.cx_syntax_stmts.specs.Readers as spec;

use cx_ahead::StartsAssign;
use cx_base::Span;
use cx_grammar::{Cursor, ParseStop, Pick, Test};
use cx_parser::expr;
use cx_syntax::{Class, Lexeme};
use cx_tree::Expr;
use sqlite_items::Boxed;
use std::alloc::Global;

// Where a token of the class stands.
#[derive(Clone, Copy)]
struct PlaceOf {
    class: Class,
}

impl Pick<Lexeme> for PlaceOf {
    type Value = Span;

    ghost use Rattle.cx_syntax.specs.Readers.{just};
    ghost use Rattle.cx_syntax.specs.Values.{pick};
    ghost use Rattle.cx_syntax_stmts.specs.Values.{place_of};

    ghost picks = { λ s t. pick (just s.class) place_of t };

    fn pick(&self, token: &Lexeme) -> Option<Span> {
        if !self.class.test(token) {
            return None;
        }
        Some(token.span)
    }
}

/// Where a token of a class stands.
pub fn place(tokens: &mut Cursor<'_, Lexeme>, class: Class) -> Result<Span, ParseStop>
    ensures { Reads (spec.place class tokens.old) result tokens.new }
{
    tokens.take(&PlaceOf { class })
}

/// An expression one level deeper than so many, where there is such a level ([expr]).
#[inline(never)]
pub fn expr_below(
    alloc: Global,
    tokens: &mut Cursor<'_, Lexeme>,
    left: usize,
) -> Result<Boxed<Expr>, ParseStop>
    ensures { Reads ((deeper left).expr tokens.old) result tokens.new }
{
    if left == 0 {
        return Err(tokens.refuse());
    }
    expr(alloc, tokens, left - 1)
}

/// The same, if an expression begins there.
#[inline(never)]
pub fn maybe_expr(
    alloc: Global,
    tokens: &mut Cursor<'_, Lexeme>,
    left: usize,
) -> Result<Option<Boxed<Expr>>, ParseStop>
    ensures { Reads (spec.maybe_expr left tokens.old) result tokens.new }
{
    if !tokens.sees(&StartsAssign) {
        return Ok(None);
    }
    Ok(Some(expr_below(alloc, tokens, left)?))
}

/// A condition in parentheses, one level deeper than so many ([stmt.select]).
#[inline(never)]
pub fn condition(
    alloc: Global,
    tokens: &mut Cursor<'_, Lexeme>,
    left: usize,
) -> Result<Boxed<Expr>, ParseStop>
    ensures { Reads (spec.condition left tokens.old) result tokens.new }
{
    tokens.expect(&Class::OpenParen)?;
    let condition = expr_below(alloc, tokens, left)?;
    tokens.expect(&Class::CloseParen)?;
    Ok(condition)
}

/// The expression in the box, if there is one.
#[inline(never)]
pub fn unboxed(boxed: Option<Boxed<Expr>>) -> Option<Expr>
    ensures { result ≡ boxed }
{
    match boxed {
        Some(expr) => Some(expr.into_inner()),
        None => None,
    }
}
