//! The rules with so many levels left.

ghost use Rattle.cx_grammar.specs.Answers.{Begins};
ghost use Rattle.cx_grammar.specs.Reads.{Reads};
ghost use Rattle.cx_parser.specs.Below.{operand_reader_of, reader_of};
ghost use Rattle.cx_syntax.specs.Goes.{goes_args, goes_assign};
ghost use Rattle.cx_syntax.specs.Readers as spec;
ghost use Rattle.cx_syntax.specs.Readers.{deeper};
ghost use Rattle.cx_syntax.specs.Symbols as symbols;
ghost use Rattle.cx_syntax.specs.Symbols.{after, nothing};

use crate::grammar::{ExprRule, Functions, Grammar, OperandRule};
use cx_base::List;
use cx_grammar::{Cursor, ParseStop};
use cx_syntax::Lexeme;
use cx_tree::{Args, Bound, Braces, Expr, Given, TypeId};
use sqlite_items::Boxed;
use std::alloc::Global;

/// How many levels deep expressions may nest ([implimits]).
pub const LEVELS: usize = 512;

/// The rules over themselves one level deeper.
macro_rules! rules {
    ($alloc:expr, $left:expr) => {
        Grammar {
            alloc: $alloc,
            left: $left,
            rules: Functions {
                expr: expr_within,
                operand: operand_within,
                braces: braces_within,
            },
        }
    };
}

#[cycle(levels)]
fn expr_within(
    alloc: Global,
    tokens: &mut Cursor<'_, Lexeme>,
    left: usize,
    rule: ExprRule,
) -> Result<Boxed<Expr>, ParseStop>
    ensures { Reads (reader_of rule (deeper left) tokens.old) result tokens.new }
{
    let grammar = rules!(alloc, left);
    match rule {
        ExprRule::Expr => grammar.expr(tokens),
        ExprRule::Assign => grammar.assign(tokens),
        ExprRule::Cond => grammar.cond(tokens),
    }
}

#[cycle(levels)]
fn operand_within(
    alloc: Global,
    tokens: &mut Cursor<'_, Lexeme>,
    left: usize,
    rule: OperandRule,
) -> Result<(Boxed<Expr>, bool), ParseStop>
    ensures { Reads (operand_reader_of rule (deeper left) tokens.old) result tokens.new }
{
    let grammar = rules!(alloc, left);
    match rule {
        OperandRule::Cast => grammar.cast(tokens),
        OperandRule::Unary => grammar.unary(tokens),
    }
}

#[cycle(levels)]
fn braces_within(
    alloc: Global,
    tokens: &mut Cursor<'_, Lexeme>,
    left: usize,
) -> Result<Braces, ParseStop>
    ensures { Reads (spec.braces (deeper left) tokens.old) result tokens.new }
{
    rules!(alloc, left).braces(tokens)
}

/// An expression ([expr]) with so many levels left: the one tree of the tokens that it takes, or the first token with which they are the front of none.
pub fn expr(
    alloc: Global,
    tokens: &mut Cursor<'_, Lexeme>,
    left: usize,
) -> Result<Boxed<Expr>, ParseStop>
    ensures reads { Reads (spec.expr (deeper left) tokens.old) result tokens.new }
    ensures begins { Begins symbols.expr (after goes_args) left tokens.old result tokens.new }
{
    expr_within(alloc, tokens, left, ExprRule::Expr)
}

/// An assignment expression ([expr.ass]) with so many levels left: the one tree of the tokens that it takes, or the first token with which they are the front of none.
pub fn assign(
    alloc: Global,
    tokens: &mut Cursor<'_, Lexeme>,
    left: usize,
) -> Result<Boxed<Expr>, ParseStop>
    ensures reads { Reads (spec.assign (deeper left) tokens.old) result tokens.new }
    ensures begins { Begins symbols.assign (after goes_assign) left tokens.old result tokens.new }
{
    expr_within(alloc, tokens, left, ExprRule::Assign)
}

/// A conditional expression ([expr.cond]) with so many levels left: the one tree of the tokens that it takes, or the first token with which they are the front of none.
pub fn cond(
    alloc: Global,
    tokens: &mut Cursor<'_, Lexeme>,
    left: usize,
) -> Result<Boxed<Expr>, ParseStop>
    ensures reads { Reads (spec.cond (deeper left) tokens.old) result tokens.new }
    ensures begins { Begins symbols.cond (after goes_assign) left tokens.old result tokens.new }
{
    expr_within(alloc, tokens, left, ExprRule::Cond)
}

/// Clauses in braces ([dcl.init.list]) with so many levels left: the one tree of the tokens that it takes, or the first token with which they are the front of none.
pub fn braces(
    alloc: Global,
    tokens: &mut Cursor<'_, Lexeme>,
    left: usize,
) -> Result<Braces, ParseStop>
    ensures reads { Reads (spec.braces (deeper left) tokens.old) result tokens.new }
    ensures begins { Begins symbols.braces nothing left tokens.old result tokens.new }
{
    braces_within(alloc, tokens, left)
}

/// A type without a name ([dcl.name]) with so many levels left.
pub fn typeid(
    alloc: Global,
    tokens: &mut Cursor<'_, Lexeme>,
    left: usize,
) -> Result<Boxed<TypeId>, ParseStop>
    ensures { Reads (spec.typeid (deeper left) tokens.old) result tokens.new }
{
    rules!(alloc, left).typeid(tokens)
}

/// Up to 16 bounds of arrays ([dcl.array]) with so many levels left.
pub fn bounds(
    alloc: Global,
    tokens: &mut Cursor<'_, Lexeme>,
    left: usize,
) -> Result<List<Bound>, ParseStop>
    ensures { Reads (spec.bounds (deeper left) tokens.old) result tokens.new }
{
    rules!(alloc, left).bounds(tokens)
}

/// Arguments in parentheses ([expr.call]) with so many levels left.
pub fn paren_args(
    alloc: Global,
    tokens: &mut Cursor<'_, Lexeme>,
    left: usize,
) -> Result<Args, ParseStop>
    ensures { Reads (spec.paren_args (deeper left) tokens.old) result tokens.new }
{
    rules!(alloc, left).paren_args(tokens)
}

/// What an object is made from ([dcl.init]) with so many levels left.
pub fn given(
    alloc: Global,
    tokens: &mut Cursor<'_, Lexeme>,
    left: usize,
) -> Result<Given, ParseStop>
    ensures { Reads (spec.given (deeper left) tokens.old) result tokens.new }
{
    rules!(alloc, left).given(tokens)
}
