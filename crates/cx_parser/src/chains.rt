//! Binary operators.

ghost use Rattle.std.specs.Prelude.{◌≡◌, IfOk};
ghost use Rattle.cx_grammar.specs.Reads.{Reads};
ghost use Rattle.cx_parser.specs.Parts as parts;
ghost use Rattle.cx_syntax.specs.Readers as spec;
ghost use Rattle.cx_syntax.specs.Readers.{deeper};

use crate::grammar::{Deeper, Grammar};
use crate::heads::node;
use cx_ahead::Allowed;
use cx_base::{List, Span};
use cx_grammar::{Cursor, ParseStop};
use cx_syntax::{Lexeme, span_of};
use cx_tree::{Expr, ExprKind, Operation};
use sqlite_items::Boxed;
use std::alloc::{AllocError, Global};

#[inline(never)]
fn chained(
    alloc: Global,
    first: (Boxed<Expr>, bool),
    found: (List<Operation>, bool),
    extent: Span,
) -> Result<(Boxed<Expr>, bool), AllocError>
    ensures { IfOk result (λ o. o ≡ parts.chained_with first found extent) }
{
    let (operations, open_new) = found;
    if operations.as_slice().is_empty() {
        return Ok(first);
    }
    let (first, _) = first;
    Ok((
        node(alloc, ExprKind::Chain(first, operations), extent)?,
        open_new,
    ))
}

impl<R: Deeper> Grammar<R> {
    #[inline(never)]
    #[cycle(chain)]
    #[tactic(auto, unfolding(cx_syntax::specs::Readers::chain))]
    fn turns(
        &self,
        tokens: &mut Cursor<'_, Lexeme>,
        level: usize,
        open_new: bool,
    ) -> Result<(List<Operation>, bool), ParseStop>
        requires ready { R.ready self.now.rules self.now.left }
        ensures { Reads (parts.turned (deeper self.now.left) level open_new tokens.old) result tokens.new }
    {
        let mut found = List::new(self.alloc);
        let mut open_new = open_new;
        while tokens.sees(&Allowed { level, open_new }) {
            let operator = tokens.take(&Allowed { level, open_new })?;
            let (operand, open) = self.chain(tokens, level)?;
            found.push(Operation {
                operator,
                operand: operand.into_inner(),
            })?;
            open_new = open;
        }
        Ok((found, open_new))
    }

    /// Operations of so many levels, tightest first ([expr.mul] to [expr.log.or]).
    #[inline(never)]
    #[cycle(chain)]
    #[tactic(auto, unfolding(cx_syntax::specs::Readers::chain))]
    pub fn chain(
        &self,
        tokens: &mut Cursor<'_, Lexeme>,
        level: usize,
    ) -> Result<(Boxed<Expr>, bool), ParseStop>
        requires ready { R.ready self.now.rules self.now.left }
        ensures { Reads (spec.chain (deeper self.now.left) level tokens.old) result tokens.new }
    {
        if level == 0 {
            return self.cast(tokens);
        }
        let from = tokens.rest();
        let first = self.chain(tokens, level - 1)?;
        let found = self.turns(tokens, level - 1, first.1)?;
        Ok(chained(self.alloc, first, found, span_of(tokens.since(from)))?)
    }
}
