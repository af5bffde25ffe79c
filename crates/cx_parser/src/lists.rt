//! Types without a name, and lists in parentheses and braces.

ghost use Rattle.std.specs.Prelude.{◌≡◌, true};
ghost use Rattle.cx_grammar.specs.Reads.{Reads};
ghost use Rattle.cx_parser.specs.Parts as parts;
ghost use Rattle.cx_syntax.specs.Readers as spec;
ghost use Rattle.cx_syntax.specs.Readers.{deeper};

use crate::grammar::{Deeper, Grammar};
use cx_ahead::{StartsAssign, StartsClause, StartsUnary};
use cx_base::List;
use cx_grammar::{Cursor, ParseStop, Part, read_others, read_upto};
use cx_parser_names::{or_none, ptrs, read_more, specs};
use cx_syntax::{Class, Lexeme, span_of};
use cx_tree::{Args, Bound, Braces, Clause, Expr, Given, TypeId};
use sqlite_items::Boxed;
use std::alloc::Global;

impl<R: Deeper> Grammar<R> {
    #[inline(never)]
    fn bound_size(&self, tokens: &mut Cursor<'_, Lexeme>) -> Result<Option<Boxed<Expr>>, ParseStop>
        requires ready { R.ready self.now.rules self.now.left }
        ensures { Reads (spec.bound_size (deeper self.now.left) tokens.old) result tokens.new }
    {
        if !tokens.sees(&StartsUnary) {
            return Ok(None);
        }
        if !self.room() {
            return Err(tokens.too_deep());
        }
        Ok(Some(self.rules.cond(self.alloc, tokens, self.left)?))
    }

    /// Up to 16 bounds of arrays ([dcl.array]).
    #[inline(never)]
    pub fn bounds(&self, tokens: &mut Cursor<'_, Lexeme>) -> Result<List<Bound>, ParseStop>
        requires ready { R.ready self.now.rules self.now.left }
        ensures { Reads (spec.bounds (deeper self.now.left) tokens.old) result tokens.new }
    {
        read_upto(
            self.alloc,
            tokens,
            16,
            &Class::OpenBracket,
            &BoundPart { grammar: self },
        )
    }

    /// A type without a name ([dcl.name]).
    #[inline(never)]
    #[tactic(auto, unfolding(cx_syntax::specs::Readers::typeid))]
    pub fn typeid(&self, tokens: &mut Cursor<'_, Lexeme>) -> Result<Boxed<TypeId>, ParseStop>
        requires ready { R.ready self.now.rules self.now.left }
        ensures { Reads (spec.typeid (deeper self.now.left) tokens.old) result tokens.new }
    {
        let from = tokens.rest();
        let specs = specs(self.alloc, tokens)?;
        let ptrs = ptrs(self.alloc, tokens)?;
        let bounds = self.bounds(tokens)?;
        let ty = TypeId {
            specs,
            ptrs,
            bounds,
            span: span_of(tokens.since(from)),
        };
        Ok(Boxed::new(self.alloc, ty)?)
    }

    /// The same in parentheses.
    #[inline(never)]
    pub fn paren_typeid(&self, tokens: &mut Cursor<'_, Lexeme>) -> Result<Boxed<TypeId>, ParseStop>
        requires ready { R.ready self.now.rules self.now.left }
        ensures { Reads (spec.paren_typeid (deeper self.now.left) tokens.old) result tokens.new }
    {
        tokens.expect(&Class::OpenParen)?;
        let ty = self.typeid(tokens)?;
        tokens.expect(&Class::CloseParen)?;
        Ok(ty)
    }

    /// An expression in parentheses ([expr.prim.paren]).
    #[inline(never)]
    pub fn paren_expr(&self, tokens: &mut Cursor<'_, Lexeme>) -> Result<Boxed<Expr>, ParseStop>
        requires room { (deeper self.now.left).room ≡ true }
        requires ready { R.ready self.now.rules self.now.left }
        ensures { Reads (spec.paren_expr (deeper self.now.left) tokens.old) result tokens.new }
    {
        tokens.expect(&Class::OpenParen)?;
        let inner = self.rules.expr(self.alloc, tokens, self.left)?;
        tokens.expect(&Class::CloseParen)?;
        Ok(inner)
    }

    #[inline(never)]
    #[tactic(auto, unfolding(cx_syntax::specs::Readers::args))]
    fn maybe_args(&self, tokens: &mut Cursor<'_, Lexeme>) -> Result<Option<List<Expr>>, ParseStop>
        requires ready { R.ready self.now.rules self.now.left }
        ensures { Reads (parts.maybe_args (deeper self.now.left) tokens.old) result tokens.new }
    {
        if !tokens.sees(&StartsAssign) {
            return Ok(None);
        }
        if !self.room() {
            return Err(tokens.too_deep());
        }
        let mut first = List::new(self.alloc);
        first.push(
            self.rules
                .assign(self.alloc, tokens, self.left)?
                .into_inner(),
        )?;
        let part = OtherArg { grammar: self };
        Ok(Some(read_more(tokens, first, &Class::Comma, &part)?))
    }

    /// Arguments in parentheses ([expr.call]).
    #[inline(never)]
    #[tactic(auto, unfolding(cx_syntax::specs::Readers::paren_args))]
    pub fn paren_args(&self, tokens: &mut Cursor<'_, Lexeme>) -> Result<Args, ParseStop>
        requires ready { R.ready self.now.rules self.now.left }
        ensures { Reads (spec.paren_args (deeper self.now.left) tokens.old) result tokens.new }
    {
        let from = tokens.rest();
        tokens.expect(&Class::OpenParen)?;
        let items = self.maybe_args(tokens)?;
        tokens.expect(&Class::CloseParen)?;
        Ok(Args {
            items: or_none(self.alloc, items),
            span: span_of(tokens.since(from)),
        })
    }

    #[inline(never)]
    #[tactic(auto, unfolding(cx_syntax::specs::Readers::clause))]
    fn clause(&self, tokens: &mut Cursor<'_, Lexeme>) -> Result<Clause, ParseStop>
        requires room { (deeper self.now.left).room ≡ true }
        requires ready { R.ready self.now.rules self.now.left }
        ensures { Reads (spec.clause (deeper self.now.left) tokens.old) result tokens.new }
    {
        if tokens.sees(&Class::OpenBrace) {
            Ok(Clause::Nested(self.rules.braces(self.alloc, tokens, self.left)?))
        } else {
            Ok(Clause::Value(
                self.rules
                    .assign(self.alloc, tokens, self.left)?
                    .into_inner(),
            ))
        }
    }

    #[inline(never)]
    #[tactic(auto, unfolding(cx_syntax::specs::Readers::clauses_in))]
    fn maybe_clauses(
        &self,
        tokens: &mut Cursor<'_, Lexeme>,
    ) -> Result<Option<List<Clause>>, ParseStop>
        requires ready { R.ready self.now.rules self.now.left }
        ensures { Reads (parts.maybe_clauses (deeper self.now.left) tokens.old) result tokens.new }
    {
        if !tokens.sees(&StartsClause) {
            return Ok(None);
        }
        if !self.room() {
            return Err(tokens.too_deep());
        }
        let mut first = List::new(self.alloc);
        first.push(self.clause(tokens)?)?;
        let part = OtherClause { grammar: self };
        Ok(Some(read_others(tokens, first, &Class::Comma, &StartsClause, &part)?))
    }

    /// Clauses in braces ([dcl.init.list]).
    #[inline(never)]
    #[tactic(auto, unfolding(cx_syntax::specs::Readers::braces))]
    pub fn braces(&self, tokens: &mut Cursor<'_, Lexeme>) -> Result<Braces, ParseStop>
        requires ready { R.ready self.now.rules self.now.left }
        ensures { Reads (spec.braces (deeper self.now.left) tokens.old) result tokens.new }
    {
        let from = tokens.rest();
        tokens.expect(&Class::OpenBrace)?;
        let clauses = self.maybe_clauses(tokens)?;
        tokens.expect(&Class::CloseBrace)?;
        Ok(Braces {
            clauses: or_none(self.alloc, clauses),
            span: span_of(tokens.since(from)),
        })
    }

    /// What an object is made from ([dcl.init]).
    #[inline(never)]
    #[tactic(auto, unfolding(cx_syntax::specs::Readers::given))]
    pub fn given(&self, tokens: &mut Cursor<'_, Lexeme>) -> Result<Given, ParseStop>
        requires ready { R.ready self.now.rules self.now.left }
        ensures { Reads (spec.given (deeper self.now.left) tokens.old) result tokens.new }
    {
        if tokens.sees(&Class::OpenParen) {
            Ok(Given::Args(self.paren_args(tokens)?))
        } else {
            Ok(Given::Braces(self.braces(tokens)?))
        }
    }
}

/// As a part that a loop reads.
#[derive(Drop)]
struct BoundPart<'g, R> {
    grammar: &'g Grammar<R>,
}

impl<'g, R: Deeper> Part<Lexeme> for BoundPart<'g, R> {
    type Value = Bound;

    ghost ready = { λ s. R.ready s.grammar.now.rules s.grammar.now.left };

    ghost reader = { λ s. spec.bound (deeper s.grammar.now.left) };

    #[tactic(auto, unfolding(cx_syntax::specs::Readers::bound))]
    fn read(&self, tokens: &mut Cursor<'_, Lexeme>) -> Result<Bound, ParseStop> {
        let from = tokens.rest();
        tokens.expect(&Class::OpenBracket)?;
        let size = self.grammar.bound_size(tokens)?;
        tokens.expect(&Class::CloseBracket)?;
        Ok(Bound {
            size,
            span: span_of(tokens.since(from)),
        })
    }
}

/// As a part that a loop reads.
#[derive(Drop)]
struct OtherArg<'g, R> {
    grammar: &'g Grammar<R>,
}

impl<'g, R: Deeper> Part<Lexeme> for OtherArg<'g, R> {
    type Value = Expr;

    ghost ready = { λ s. ((deeper s.grammar.now.left).room ≡ true) × (R.ready s.grammar.now.rules s.grammar.now.left) };

    ghost reader = { λ s. spec.other_arg (deeper s.grammar.now.left) };

    fn read(&self, tokens: &mut Cursor<'_, Lexeme>) -> Result<Expr, ParseStop> {
        tokens.expect(&Class::Comma)?;
        let grammar = self.grammar;
        let arg = grammar.rules.assign(grammar.alloc, tokens, grammar.left)?;
        Ok(arg.into_inner())
    }
}

/// As a part that a loop reads.
#[derive(Drop)]
struct OtherClause<'g, R> {
    grammar: &'g Grammar<R>,
}

impl<'g, R: Deeper> Part<Lexeme> for OtherClause<'g, R> {
    type Value = Clause;

    ghost ready = { λ s. ((deeper s.grammar.now.left).room ≡ true) × (R.ready s.grammar.now.rules s.grammar.now.left) };

    ghost reader = { λ s. spec.other_clause (deeper s.grammar.now.left) };

    fn read(&self, tokens: &mut Cursor<'_, Lexeme>) -> Result<Clause, ParseStop> {
        tokens.expect(&Class::Comma)?;
        self.grammar.clause(tokens)
    }
}
