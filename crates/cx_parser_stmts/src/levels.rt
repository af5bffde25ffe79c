//! The rules with so many levels left.

ghost use Rattle.std.specs.Prelude.{◌≡◌};
ghost use Rattle.cx_grammar.specs.Answers.{Begins};
ghost use Rattle.cx_grammar.specs.Reads.{Reads};
ghost use Rattle.cx_syntax.specs.Symbols.{nothing};
ghost use Rattle.cx_syntax_stmts.specs.Goes.{goes_item, goes_stmt};
ghost use Rattle.cx_syntax_stmts.specs.Readers as spec;
ghost use Rattle.cx_syntax_stmts.specs.Symbols as symbols;

use crate::statements::{Functions, Statements};
use cx_grammar::{Cursor, ParseStop};
use cx_syntax::Lexeme;
use cx_tree::{Block, Item, Stmt};
use sqlite_items::Boxed;
use std::alloc::Global;

/// The rules over themselves one level deeper.
macro_rules! rules {
    ($alloc:expr, $left:expr) => {
        Statements {
            alloc: $alloc,
            left: $left,
            rules: Functions {
                stmt: stmt_within,
                item: item_within,
            },
        }
    };
}

#[cycle(levels)]
fn stmt_within(
    alloc: Global,
    tokens: &mut Cursor<'_, Lexeme>,
    left: usize,
) -> Result<Boxed<Stmt>, ParseStop>
    ensures { Reads (spec.stmt left tokens.old) result tokens.new }
{
    rules!(alloc, left).stmt(tokens)
}

#[cycle(levels)]
fn item_within(
    alloc: Global,
    tokens: &mut Cursor<'_, Lexeme>,
    left: usize,
) -> Result<Boxed<Item>, ParseStop>
    ensures { Reads (spec.item left tokens.old) result tokens.new }
{
    rules!(alloc, left).item(tokens)
}

fn whole_item(
    alloc: Global,
    tokens: &mut Cursor<'_, Lexeme>,
    left: usize,
) -> Result<Item, ParseStop>
    ensures { Reads (spec.item left tokens.old) result tokens.new }
{
    Ok(item_within(alloc, tokens, left)?.into_inner())
}

fn whole_stmt(
    alloc: Global,
    tokens: &mut Cursor<'_, Lexeme>,
    left: usize,
) -> Result<Stmt, ParseStop>
    ensures { Reads (spec.stmt left tokens.old) result tokens.new }
{
    Ok(stmt_within(alloc, tokens, left)?.into_inner())
}

/// A block with so many levels left ([stmt.block]): the one tree of the tokens that it takes, or the first token with which they are the front of none.
pub fn block(
    alloc: Global,
    tokens: &mut Cursor<'_, Lexeme>,
    left: usize,
) -> Result<Block, ParseStop>
    ensures reads { Reads (spec.block left tokens.old) result tokens.new }
    ensures begins { Begins symbols.block nothing left tokens.old result tokens.new }
{
    rules!(alloc, left).block(tokens)
}

/// What stands in a block, with so many levels left ([stmt.dcl]): the one tree of the tokens that it takes, or the first token with which they are the front of none.
pub fn item(alloc: Global, tokens: &mut Cursor<'_, Lexeme>, left: usize) -> Result<Item, ParseStop>
    ensures reads { Reads (spec.item left tokens.old) result tokens.new }
    ensures begins { Begins symbols.item goes_item left tokens.old result tokens.new }
{
    whole_item(alloc, tokens, left)
}

/// A statement with so many levels left ([stmt.stmt]): the one tree of the tokens that it takes, or the first token with which they are the front of none.
pub fn stmt(alloc: Global, tokens: &mut Cursor<'_, Lexeme>, left: usize) -> Result<Stmt, ParseStop>
    ensures reads { Reads (spec.stmt left tokens.old) result tokens.new }
    ensures begins { Begins symbols.stmt goes_stmt left tokens.old result tokens.new }
{
    whole_stmt(alloc, tokens, left)
}
