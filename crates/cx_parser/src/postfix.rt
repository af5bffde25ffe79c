//! What stands behind a head ([expr.post]).

ghost use Rattle.cx_grammar.specs.Reads.{Reads};
ghost use Rattle.cx_parser.specs.Parts as parts;
ghost use Rattle.cx_syntax.specs.Readers as spec;
ghost use Rattle.cx_syntax.specs.Readers.{deeper};

use crate::grammar::{Deeper, Grammar};
use crate::heads::node;
use cx_ahead::{ReachIn, StartsMore, Step, StepIn};
use cx_grammar::{Cursor, ParseStop, Part, read_many};
use cx_parser_names::{destructor_name, fname};
use cx_syntax::{Class, Lexeme, span_of};
use cx_tree::{Expr, ExprKind, More, MoreKind};
use sqlite_items::Boxed;
use std::alloc::Global;

#[inline(never)]
#[tactic(auto, unfolding(cx_syntax::specs::Readers::member, cx_syntax::specs::Readers::member_part))]
fn member(alloc: Global, tokens: &mut Cursor<'_, Lexeme>) -> Result<MoreKind, ParseStop>
    ensures { Reads (parts.member tokens.old) result tokens.new }
{
    let reach = tokens.take(&ReachIn)?;
    if !tokens.sees(&Class::Tilde) {
        let name = fname(alloc, tokens)?;
        return Ok(MoreKind::Member(reach, Boxed::new(alloc, name)?));
    }
    let name = destructor_name(alloc, tokens)?;
    tokens.expect(&Class::OpenParen)?;
    tokens.expect(&Class::CloseParen)?;
    Ok(MoreKind::Destroy(reach, name))
}

impl<R: Deeper> Grammar<R> {
    #[inline(never)]
    #[tactic(auto, unfolding(cx_syntax::specs::Readers::more_kind, cx_syntax::specs::Readers::subscript, cx_syntax::specs::Readers::member, cx_syntax::specs::Readers::member_part))]
    fn more_kind(&self, tokens: &mut Cursor<'_, Lexeme>) -> Result<MoreKind, ParseStop>
        requires ready { R.ready self.now.rules self.now.left }
        ensures { Reads (spec.more_kind (deeper self.now.left) tokens.old) result tokens.new }
    {
        if tokens.sees(&Class::OpenBracket) {
            if !self.room() {
                return Err(tokens.too_deep());
            }
            tokens.expect(&Class::OpenBracket)?;
            let index = self.rules.expr(self.alloc, tokens, self.left)?;
            tokens.expect(&Class::CloseBracket)?;
            Ok(MoreKind::Subscript(index.into_inner()))
        } else if tokens.sees(&Class::OpenParen) {
            Ok(MoreKind::Call(self.paren_args(tokens)?))
        } else if tokens.sees(&Step) {
            tokens.take(&StepIn)
        } else {
            member(self.alloc, tokens)
        }
    }

    /// A head and what stands behind it ([expr.post]).
    #[inline(never)]
    #[tactic(auto, unfolding(cx_syntax::specs::Readers::postfix, cx_syntax::specs::Readers::head))]
    pub fn postfix(&self, tokens: &mut Cursor<'_, Lexeme>) -> Result<Boxed<Expr>, ParseStop>
        requires ready { R.ready self.now.rules self.now.left }
        ensures { Reads (spec.postfix (deeper self.now.left) tokens.old) result tokens.new }
    {
        let from = tokens.rest();
        let kind = self.head_kind(tokens)?;
        let head = node(self.alloc, kind, span_of(tokens.since(from)))?;
        let part = MorePart { grammar: self };
        let mores = read_many(self.alloc, tokens, &StartsMore, &part)?;
        if mores.as_slice().is_empty() {
            return Ok(head);
        }
        let kind = ExprKind::Postfix(head, mores);
        Ok(node(self.alloc, kind, span_of(tokens.since(from)))?)
    }
}

/// As a part that a loop reads.
#[derive(Drop)]
struct MorePart<'g, R> {
    grammar: &'g Grammar<R>,
}

impl<'g, R: Deeper> Part<Lexeme> for MorePart<'g, R> {
    type Value = More;

    ghost ready = { λ s. R.ready s.grammar.now.rules s.grammar.now.left };

    ghost reader = { λ s. spec.more (deeper s.grammar.now.left) };

    #[tactic(auto, unfolding(cx_syntax::specs::Readers::more))]
    fn read(&self, tokens: &mut Cursor<'_, Lexeme>) -> Result<More, ParseStop> {
        let from = tokens.rest();
        let kind = self.grammar.more_kind(tokens)?;
        Ok(More {
            kind,
            span: span_of(tokens.since(from)),
        })
    }
}
