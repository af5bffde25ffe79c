//! Operands and casts ([expr.unary], [expr.cast]).

ghost use Rattle.std.specs.Prelude.{◌≡◌, true, not};
ghost use Rattle.cx_grammar.specs.Reads.{Reads};
ghost use Rattle.cx_parser.specs.Parts as parts;
ghost use Rattle.cx_syntax.specs.Readers as spec;
ghost use Rattle.cx_syntax.specs.Values as values;
ghost use Rattle.cx_syntax.specs.Readers.{deeper};

use crate::grammar::{Deeper, Grammar};
use crate::heads::node;
use cx_ahead::{
    AnyPrefix, PrefixOpIn, StartsGiven, behind, operand_fault, sees, type_ahead, type_fault,
};
use cx_grammar::{Cursor, ParseStop};
use cx_parser_names::{is_there, specs, stars};
use cx_syntax::{Class, Lexeme, span_of};
use cx_tree::{Expr, ExprKind, Given, New};
use sqlite_items::Boxed;
use std::alloc::Global;

#[tactic(auto, unfolding(cx_syntax::specs::Readers::empty_brackets))]
fn maybe_brackets(tokens: &mut Cursor<'_, Lexeme>) -> Result<Option<()>, ParseStop>
    ensures { Reads (parts.maybe_brackets tokens.old) result tokens.new }
{
    if !tokens.sees(&Class::OpenBracket) {
        return Ok(None);
    }
    tokens.expect(&Class::OpenBracket)?;
    tokens.expect(&Class::CloseBracket)?;
    Ok(Some(()))
}

fn is_open(given: &Option<Given>) -> bool
    ensures { result ≡ not (values.is_there given.now) }
{
    match given {
        Some(_) => false,
        None => true,
    }
}

impl<R: Deeper> Grammar<R> {
    #[inline(never)]
    #[tactic(auto, unfolding(cx_syntax::specs::Readers::prefix))]
    fn prefix(&self, tokens: &mut Cursor<'_, Lexeme>) -> Result<(Boxed<Expr>, bool), ParseStop>
        requires ready { R.ready self.now.rules self.now.left }
        ensures { Reads (spec.prefix (deeper self.now.left) tokens.old) result tokens.new }
    {
        if !self.room() {
            return Err(tokens.too_deep());
        }
        let from = tokens.rest();
        let operator = tokens.take(&PrefixOpIn)?;
        let (operand, open_new) = self.rules.cast(self.alloc, tokens, self.left)?;
        let kind = ExprKind::Prefix(operator, operand);
        Ok((
            node(self.alloc, kind, span_of(tokens.since(from)))?,
            open_new,
        ))
    }

    #[inline(never)]
    #[tactic(auto, unfolding(cx_syntax::specs::Readers::delete))]
    fn delete(&self, tokens: &mut Cursor<'_, Lexeme>) -> Result<(Boxed<Expr>, bool), ParseStop>
        requires ready { R.ready self.now.rules self.now.left }
        ensures { Reads (spec.delete (deeper self.now.left) tokens.old) result tokens.new }
    {
        if !self.room() {
            return Err(tokens.too_deep());
        }
        let from = tokens.rest();
        tokens.expect(&Class::Delete)?;
        let brackets = maybe_brackets(tokens)?;
        let (operand, open_new) = self.rules.cast(self.alloc, tokens, self.left)?;
        let kind = ExprKind::Delete(is_there(brackets), operand);
        Ok((
            node(self.alloc, kind, span_of(tokens.since(from)))?,
            open_new,
        ))
    }

    #[inline(never)]
    #[tactic(auto, unfolding(cx_syntax::specs::Readers::new_bound))]
    fn maybe_bound(&self, tokens: &mut Cursor<'_, Lexeme>) -> Result<Option<Boxed<Expr>>, ParseStop>
        requires ready { R.ready self.now.rules self.now.left }
        ensures { Reads (parts.maybe_bound (deeper self.now.left) tokens.old) result tokens.new }
    {
        if !tokens.sees(&Class::OpenBracket) {
            return Ok(None);
        }
        if !self.room() {
            return Err(tokens.too_deep());
        }
        tokens.expect(&Class::OpenBracket)?;
        let size = self.rules.expr(self.alloc, tokens, self.left)?;
        tokens.expect(&Class::CloseBracket)?;
        Ok(Some(size))
    }

    #[inline(never)]
    fn maybe_given(&self, tokens: &mut Cursor<'_, Lexeme>) -> Result<Option<Given>, ParseStop>
        requires ready { R.ready self.now.rules self.now.left }
        ensures { Reads (parts.maybe_given (deeper self.now.left) tokens.old) result tokens.new }
    {
        if !tokens.sees(&StartsGiven) {
            return Ok(None);
        }
        Ok(Some(self.given(tokens)?))
    }

    #[inline(never)]
    #[tactic(auto, unfolding(cx_syntax::specs::Readers::new))]
    fn new(&self, tokens: &mut Cursor<'_, Lexeme>) -> Result<(Boxed<Expr>, bool), ParseStop>
        requires ready { R.ready self.now.rules self.now.left }
        ensures { Reads (spec.new (deeper self.now.left) tokens.old) result tokens.new }
    {
        let from = tokens.rest();
        tokens.expect(&Class::New)?;
        let specs = specs(self.alloc, tokens)?;
        let stars = stars(self.alloc, tokens)?;
        let bound = self.maybe_bound(tokens)?;
        let given = self.maybe_given(tokens)?;
        let open_new = is_open(&given);
        let new = New {
            specs,
            stars,
            bound,
            given,
        };
        let kind = ExprKind::New(Boxed::new(self.alloc, new)?);
        Ok((
            node(self.alloc, kind, span_of(tokens.since(from)))?,
            open_new,
        ))
    }

    #[inline(never)]
    #[tactic(auto, unfolding(cx_syntax::specs::Readers::alignof_type))]
    fn alignof_type(
        &self,
        tokens: &mut Cursor<'_, Lexeme>,
    ) -> Result<(Boxed<Expr>, bool), ParseStop>
        requires ready { R.ready self.now.rules self.now.left }
        ensures { Reads (spec.alignof_type (deeper self.now.left) tokens.old) result tokens.new }
    {
        let from = tokens.rest();
        tokens.expect(&Class::Alignof)?;
        let ty = self.paren_typeid(tokens)?;
        let kind = ExprKind::AlignofType(ty);
        Ok((node(self.alloc, kind, span_of(tokens.since(from)))?, false))
    }

    #[inline(never)]
    #[tactic(auto, unfolding(cx_syntax::specs::Readers::sizeof_type))]
    fn sizeof_type(&self, tokens: &mut Cursor<'_, Lexeme>) -> Result<(Boxed<Expr>, bool), ParseStop>
        requires ready { R.ready self.now.rules self.now.left }
        ensures { Reads (spec.sizeof_type (deeper self.now.left) tokens.old) result tokens.new }
    {
        let from = tokens.rest();
        tokens.expect(&Class::Sizeof)?;
        let ty = self.paren_typeid(tokens)?;
        let kind = ExprKind::SizeofType(ty);
        Ok((node(self.alloc, kind, span_of(tokens.since(from)))?, false))
    }

    #[inline(never)]
    #[tactic(auto, unfolding(cx_syntax::specs::Readers::sizeof_expr))]
    fn sizeof_expr(&self, tokens: &mut Cursor<'_, Lexeme>) -> Result<(Boxed<Expr>, bool), ParseStop>
        requires room { (deeper self.now.left).room ≡ true }
        requires ready { R.ready self.now.rules self.now.left }
        ensures { Reads (spec.sizeof_expr (deeper self.now.left) tokens.old) result tokens.new }
    {
        let from = tokens.rest();
        tokens.expect(&Class::Sizeof)?;
        let (operand, open_new) = self.rules.unary(self.alloc, tokens, self.left)?;
        let kind = ExprKind::SizeofExpr(operand);
        Ok((
            node(self.alloc, kind, span_of(tokens.since(from)))?,
            open_new,
        ))
    }

    #[inline(never)]
    #[tactic(auto, using(crate::proofs::Depth::two_and_one), unfolding(cx_syntax::specs::Readers::sizeof))]
    fn sizeof(&self, tokens: &mut Cursor<'_, Lexeme>) -> Result<(Boxed<Expr>, bool), ParseStop>
        requires ready { R.ready self.now.rules self.now.left }
        ensures { Reads (spec.sizeof (deeper self.now.left) tokens.old) result tokens.new }
    {
        let next = behind(tokens.rest());
        if !sees(&Class::OpenParen, next) {
            if !self.room() {
                return Err(operand_fault(next));
            }
            return self.sizeof_expr(tokens);
        }
        if type_ahead(behind(next)) {
            return self.sizeof_type(tokens);
        }
        if !self.room_for_two() {
            return Err(type_fault(behind(next)));
        }
        self.sizeof_expr(tokens)
    }

    /// An operand ([expr.unary]), and whether it ends in the type of a `new`.
    #[inline(never)]
    #[tactic(auto, unfolding(cx_syntax::specs::Readers::unary))]
    pub fn unary(&self, tokens: &mut Cursor<'_, Lexeme>) -> Result<(Boxed<Expr>, bool), ParseStop>
        requires ready { R.ready self.now.rules self.now.left }
        ensures { Reads (spec.unary (deeper self.now.left) tokens.old) result tokens.new }
    {
        if tokens.sees(&AnyPrefix) {
            self.prefix(tokens)
        } else if tokens.sees(&Class::Delete) {
            self.delete(tokens)
        } else if tokens.sees(&Class::New) {
            self.new(tokens)
        } else if tokens.sees(&Class::Alignof) {
            self.alignof_type(tokens)
        } else if tokens.sees(&Class::Sizeof) {
            self.sizeof(tokens)
        } else {
            Ok((self.postfix(tokens)?, false))
        }
    }

    /// A cast ([expr.cast]), or an operand.
    #[inline(never)]
    #[tactic(auto, unfolding(cx_syntax::specs::Readers::cast, cx_syntax::specs::Readers::type_cast))]
    pub fn cast(&self, tokens: &mut Cursor<'_, Lexeme>) -> Result<(Boxed<Expr>, bool), ParseStop>
        requires ready { R.ready self.now.rules self.now.left }
        ensures { Reads (spec.cast (deeper self.now.left) tokens.old) result tokens.new }
    {
        if !tokens.sees(&Class::OpenParen) || !type_ahead(behind(tokens.rest())) {
            return self.unary(tokens);
        }
        if !self.room() {
            return Err(tokens.too_deep());
        }
        let from = tokens.rest();
        let ty = self.paren_typeid(tokens)?;
        let (operand, open_new) = self.rules.cast(self.alloc, tokens, self.left)?;
        let kind = ExprKind::Cast(ty, operand);
        Ok((
            node(self.alloc, kind, span_of(tokens.since(from)))?,
            open_new,
        ))
    }
}
