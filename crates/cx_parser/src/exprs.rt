//! Assignment, conditional and comma expressions.

ghost use Rattle.std.specs.Prelude.{◌≡◌, IfOk, true};
ghost use Rattle.cx_grammar.specs.Reads.{Reads};
ghost use Rattle.cx_parser.specs.Parts as parts;
ghost use Rattle.cx_syntax.specs.Readers as spec;
ghost use Rattle.cx_syntax.specs.Values as values;
ghost use Rattle.cx_syntax.specs.Readers.{deeper};

use crate::grammar::{Deeper, Grammar};
use crate::heads::node;
use cx_ahead::{AssignOpIn, Assignment, StartsAssign, StartsTail};
use cx_base::Span;
use cx_grammar::{Cursor, ParseStop, Part, read_many};
use cx_syntax::{Class, Lexeme, Tail, span_of};
use cx_tree::{Expr, ExprKind};
use sqlite_items::Boxed;
use std::alloc::{AllocError, Global};

#[inline(never)]
fn tailed(
    alloc: Global,
    first: Boxed<Expr>,
    tail: Option<Tail>,
    extent: Span,
) -> Result<Boxed<Expr>, AllocError>
    ensures { IfOk result (λ e. e ≡ values.tailed_by first extent tail) }
{
    match tail {
        None => Ok(first),
        Some(Tail::Assigned(operator, right)) => node(
            alloc,
            ExprKind::Assign(first, operator, right),
            extent,
        ),
        Some(Tail::Chosen(left, right)) => node(
            alloc,
            ExprKind::Conditional(first, left, right),
            extent,
        ),
    }
}

#[inline(never)]
fn chosen(
    alloc: Global,
    first: Boxed<Expr>,
    choice: Option<(Boxed<Expr>, Boxed<Expr>)>,
    extent: Span,
) -> Result<Boxed<Expr>, AllocError>
    ensures { IfOk result (λ e. e ≡ values.chosen_by first extent choice) }
{
    match choice {
        None => Ok(first),
        Some((left, right)) => node(alloc, ExprKind::Conditional(first, left, right), extent),
    }
}

impl<R: Deeper> Grammar<R> {
    #[inline(never)]
    fn choice_parts(
        &self,
        tokens: &mut Cursor<'_, Lexeme>,
    ) -> Result<(Boxed<Expr>, Boxed<Expr>), ParseStop>
        requires room { (deeper self.now.left).room ≡ true }
        requires ready { R.ready self.now.rules self.now.left }
        ensures { Reads (spec.choice_parts (deeper self.now.left) tokens.old) result tokens.new }
    {
        tokens.expect(&Class::Question)?;
        let left = self.rules.expr(self.alloc, tokens, self.left)?;
        tokens.expect(&Class::Colon)?;
        let right = self.rules.assign(self.alloc, tokens, self.left)?;
        Ok((left, right))
    }

    #[inline(never)]
    #[tactic(auto, unfolding(cx_syntax::specs::Readers::tail, cx_syntax::specs::Readers::assigned, cx_syntax::specs::Readers::chosen))]
    fn maybe_tail(&self, tokens: &mut Cursor<'_, Lexeme>) -> Result<Option<Tail>, ParseStop>
        requires ready { R.ready self.now.rules self.now.left }
        ensures { Reads (parts.maybe_tail (deeper self.now.left) tokens.old) result tokens.new }
    {
        if !tokens.sees(&StartsTail) {
            return Ok(None);
        }
        if !self.room() {
            return Err(tokens.too_deep());
        }
        if tokens.sees(&Assignment) {
            let operator = tokens.take(&AssignOpIn)?;
            let right = self.rules.assign(self.alloc, tokens, self.left)?;
            return Ok(Some(Tail::Assigned(operator, right)));
        }
        let (left, right) = self.choice_parts(tokens)?;
        Ok(Some(Tail::Chosen(left, right)))
    }

    #[inline(never)]
    fn maybe_thrown(
        &self,
        tokens: &mut Cursor<'_, Lexeme>,
    ) -> Result<Option<Boxed<Expr>>, ParseStop>
        requires ready { R.ready self.now.rules self.now.left }
        ensures { Reads (parts.maybe_thrown (deeper self.now.left) tokens.old) result tokens.new }
    {
        if !tokens.sees(&StartsAssign) {
            return Ok(None);
        }
        if !self.room() {
            return Err(tokens.too_deep());
        }
        Ok(Some(self.rules.assign(self.alloc, tokens, self.left)?))
    }

    #[inline(never)]
    #[tactic(auto, unfolding(cx_syntax::specs::Readers::throw))]
    fn throw(&self, tokens: &mut Cursor<'_, Lexeme>) -> Result<Boxed<Expr>, ParseStop>
        requires ready { R.ready self.now.rules self.now.left }
        ensures { Reads (spec.throw (deeper self.now.left) tokens.old) result tokens.new }
    {
        let from = tokens.rest();
        tokens.expect(&Class::Throw)?;
        let kind = ExprKind::Throw(self.maybe_thrown(tokens)?);
        Ok(node(self.alloc, kind, span_of(tokens.since(from)))?)
    }

    /// An assignment expression ([expr.ass]).
    #[inline(never)]
    #[tactic(auto, unfolding(cx_syntax::specs::Readers::assign, cx_syntax::specs::Readers::chain_or_more))]
    pub fn assign(&self, tokens: &mut Cursor<'_, Lexeme>) -> Result<Boxed<Expr>, ParseStop>
        requires ready { R.ready self.now.rules self.now.left }
        ensures { Reads (spec.assign (deeper self.now.left) tokens.old) result tokens.new }
    {
        if tokens.sees(&Class::Throw) {
            return self.throw(tokens);
        }
        let from = tokens.rest();
        let (first, _) = self.chain(tokens, 10)?;
        let tail = self.maybe_tail(tokens)?;
        Ok(tailed(self.alloc, first, tail, span_of(tokens.since(from)))?)
    }

    #[inline(never)]
    #[tactic(auto, unfolding(cx_syntax::specs::Readers::choice))]
    fn maybe_choice(
        &self,
        tokens: &mut Cursor<'_, Lexeme>,
    ) -> Result<Option<(Boxed<Expr>, Boxed<Expr>)>, ParseStop>
        requires ready { R.ready self.now.rules self.now.left }
        ensures { Reads (parts.maybe_choice (deeper self.now.left) tokens.old) result tokens.new }
    {
        if !tokens.sees(&Class::Question) {
            return Ok(None);
        }
        if !self.room() {
            return Err(tokens.too_deep());
        }
        Ok(Some(self.choice_parts(tokens)?))
    }

    /// A conditional expression ([expr.cond]).
    #[inline(never)]
    #[tactic(auto, unfolding(cx_syntax::specs::Readers::cond))]
    pub fn cond(&self, tokens: &mut Cursor<'_, Lexeme>) -> Result<Boxed<Expr>, ParseStop>
        requires ready { R.ready self.now.rules self.now.left }
        ensures { Reads (spec.cond (deeper self.now.left) tokens.old) result tokens.new }
    {
        let from = tokens.rest();
        let (first, _) = self.chain(tokens, 10)?;
        let choice = self.maybe_choice(tokens)?;
        Ok(chosen(self.alloc, first, choice, span_of(tokens.since(from)))?)
    }

    /// An expression ([expr]).
    #[inline(never)]
    #[tactic(auto, unfolding(cx_syntax::specs::Readers::expr))]
    pub fn expr(&self, tokens: &mut Cursor<'_, Lexeme>) -> Result<Boxed<Expr>, ParseStop>
        requires ready { R.ready self.now.rules self.now.left }
        ensures { Reads (spec.expr (deeper self.now.left) tokens.old) result tokens.new }
    {
        let from = tokens.rest();
        let first = self.assign(tokens)?;
        let part = OtherExpr { grammar: self };
        let others = read_many(self.alloc, tokens, &Class::Comma, &part)?;
        if others.as_slice().is_empty() {
            return Ok(first);
        }
        let kind = ExprKind::Comma(first, others);
        Ok(node(self.alloc, kind, span_of(tokens.since(from)))?)
    }
}

/// As a part that a loop reads.
#[derive(Drop)]
struct OtherExpr<'g, R> {
    grammar: &'g Grammar<R>,
}

impl<'g, R: Deeper> Part<Lexeme> for OtherExpr<'g, R> {
    type Value = Expr;

    ghost ready = { λ s. R.ready s.grammar.now.rules s.grammar.now.left };

    ghost reader = { λ s. spec.other (deeper s.grammar.now.left) };

    fn read(&self, tokens: &mut Cursor<'_, Lexeme>) -> Result<Expr, ParseStop> {
        tokens.expect(&Class::Comma)?;
        Ok(self.grammar.assign(tokens)?.into_inner())
    }
}
