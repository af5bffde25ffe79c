//! Primary expressions, casts by words and functional notation ([expr.prim], [expr.post]).

ghost use Rattle.std.specs.Prelude.{◌≡◌, IfOk};
ghost use Rattle.cx_grammar.specs.Reads.{Reads};
ghost use Rattle.cx_parser.specs.Parts as parts;
ghost use Rattle.cx_syntax.specs.Readers as spec;
ghost use Rattle.cx_syntax.specs.Values as values;
ghost use Rattle.cx_syntax.specs.Readers.{deeper};

use crate::grammar::{Deeper, Grammar};
use cx_ahead::{
    AnyCastWord, AnyString, AnyTypeWord, CastWordIn, Literal, LiteralIn, TypeWordIn, qtype_ahead,
};
use cx_base::{List, Span};
use cx_grammar::{Cursor, ParseStop};
use cx_parser_names::{Piece, fname_parts, is_there, maybe_one, piece, qtype, read_more};
use cx_syntax::{Class, Lexeme, span_of};
use cx_tree::{Expr, ExprKind, FunctionName};
use sqlite_items::Boxed;
use std::alloc::{AllocError, Global};

/// A node of a tree.
#[inline(never)]
pub fn node(alloc: Global, kind: ExprKind, extent: Span) -> Result<Boxed<Expr>, AllocError>
    ensures { IfOk result (λ e. e ≡ values.expr_of (kind, extent)) }
{
    Boxed::new(alloc, Expr { extent, kind })
}

#[inline(never)]
#[tactic(auto, unfolding(cx_syntax::specs::Readers::id_expression))]
fn id_expression(alloc: Global, tokens: &mut Cursor<'_, Lexeme>) -> Result<ExprKind, ParseStop>
    ensures { Reads (parts.id_expression tokens.old) result tokens.new }
{
    let from = tokens.rest();
    let colons = maybe_one(tokens, Class::ColonColon)?;
    let (scopes, last) = fname_parts(alloc, tokens)?;
    let name = FunctionName {
        global: is_there(colons),
        scopes,
        last,
        span: span_of(tokens.since(from)),
    };
    Ok(ExprKind::Name(Boxed::new(alloc, name)?))
}

impl<R: Deeper> Grammar<R> {
    #[inline(never)]
    #[tactic(auto, unfolding(cx_syntax::specs::Readers::string))]
    fn string(&self, tokens: &mut Cursor<'_, Lexeme>) -> Result<ExprKind, ParseStop>
        ensures { Reads (spec.string (deeper self.now.left) tokens.old) result tokens.new }
    {
        let mut first = List::new(self.alloc);
        first.push(piece(tokens)?)?;
        let pieces = read_more(tokens, first, &AnyString, &Piece)?;
        Ok(ExprKind::Str(pieces))
    }

    #[inline(never)]
    #[tactic(auto, unfolding(cx_syntax::specs::Readers::word_cast))]
    fn word_cast(&self, tokens: &mut Cursor<'_, Lexeme>) -> Result<ExprKind, ParseStop>
        requires ready { R.ready self.now.rules self.now.left }
        ensures { Reads (spec.word_cast (deeper self.now.left) tokens.old) result tokens.new }
    {
        if !self.room() {
            return Err(tokens.too_deep());
        }
        let word = tokens.take(&CastWordIn)?;
        tokens.expect(&Class::Less)?;
        let ty = self.typeid(tokens)?;
        tokens.expect(&Class::Greater)?;
        let operand = self.paren_expr(tokens)?;
        Ok(ExprKind::NamedCast(word, ty, operand))
    }

    #[inline(never)]
    #[tactic(auto, unfolding(cx_syntax::specs::Readers::type_made))]
    fn type_made(&self, tokens: &mut Cursor<'_, Lexeme>) -> Result<ExprKind, ParseStop>
        requires ready { R.ready self.now.rules self.now.left }
        ensures { Reads (spec.type_made (deeper self.now.left) tokens.old) result tokens.new }
    {
        let name = qtype(self.alloc, tokens)?;
        let given = self.given(tokens)?;
        let name = Boxed::new(self.alloc, name)?;
        Ok(ExprKind::OfType(name, Boxed::new(self.alloc, given)?))
    }

    /// What a head is, to which operators behind it apply ([expr.prim], [expr.post]).
    #[inline(never)]
    #[tactic(auto, unfolding(cx_syntax::specs::Readers::head_kind, cx_syntax::specs::Readers::paren, cx_syntax::specs::Readers::word_made, cx_syntax::specs::Readers::id_expression))]
    pub fn head_kind(&self, tokens: &mut Cursor<'_, Lexeme>) -> Result<ExprKind, ParseStop>
        requires ready { R.ready self.now.rules self.now.left }
        ensures { Reads (spec.head_kind (deeper self.now.left) tokens.old) result tokens.new }
    {
        if tokens.sees(&Literal) {
            tokens.take(&LiteralIn)
        } else if tokens.sees(&AnyString) {
            self.string(tokens)
        } else if tokens.sees(&Class::OpenParen) {
            if !self.room() {
                return Err(tokens.too_deep());
            }
            Ok(ExprKind::Paren(self.paren_expr(tokens)?))
        } else if tokens.sees(&AnyCastWord) {
            self.word_cast(tokens)
        } else if tokens.sees(&AnyTypeWord) {
            let word = tokens.take(&TypeWordIn)?;
            let given = self.given(tokens)?;
            Ok(ExprKind::OfWord(word, Boxed::new(self.alloc, given)?))
        } else if qtype_ahead(tokens.rest()) {
            self.type_made(tokens)
        } else {
            id_expression(self.alloc, tokens)
        }
    }
}
