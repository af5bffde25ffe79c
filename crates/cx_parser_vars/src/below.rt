//! Expressions one level deeper.

ghost use Rattle.std.specs.Prelude.{◌≡◌, true};
ghost use Rattle.cx_grammar.specs.Reads.{Reads};
ghost use Rattle.cx_syntax.specs.Readers.{deeper};

use cx_grammar::{Cursor, ParseStop};
use cx_parser::assign;
use cx_syntax::Lexeme;
use cx_tree::Expr;
use sqlite_items::Boxed;
use std::alloc::Global;

/// Whether there is a level deeper.
pub fn room(left: usize) -> bool
    ensures { result ≡ (deeper left).room }
{
    left != 0
}

/// An assignment expression one level deeper ([expr.ass]).
#[inline(never)]
pub fn assign_below(
    alloc: Global,
    tokens: &mut Cursor<'_, Lexeme>,
    left: usize,
) -> Result<Boxed<Expr>, ParseStop>
    requires { (deeper left).room ≡ true }
    ensures { Reads ((deeper left).assign tokens.old) result tokens.new }
{
    assign(alloc, tokens, left - 1)
}
