//! The choice among statements ([stmt.stmt]).

ghost use Rattle.std.specs.Prelude.{◌≡◌, IfOk};
ghost use Rattle.cx_grammar.specs.Reads.{Reads};
ghost use Rattle.cx_parser_stmts.specs.Parts as parts;
ghost use Rattle.cx_syntax_stmts.specs.Readers as spec;
ghost use Rattle.cx_syntax_stmts.specs.Readers.{deeper};
ghost use Rattle.cx_syntax_stmts.specs.Values as values;

use crate::jumps::jump_stmt;
use crate::statements::{Nested, Statements};
use cx_base::Span;
use cx_grammar::{Cursor, ParseStop};
use cx_parser_vars::attrs;
use cx_syntax::{Class, Lexeme, span_of};
use cx_tree::{Stmt, StmtKind};
use sqlite_items::Boxed;
use std::alloc::{AllocError, Global};

#[inline(never)]
fn stmt_of(
    alloc: Global,
    attrs: u32,
    kind: Boxed<StmtKind>,
    span: Span,
) -> Result<Boxed<Stmt>, AllocError>
    ensures { IfOk result (λ s. s ≡ values.stmt_of ((attrs, kind), span)) }
{
    let stmt = Stmt {
        attrs,
        kind: kind.into_inner(),
        span,
    };
    Boxed::new(alloc, stmt)
}

#[inline(never)]
fn empty_stmt(alloc: Global, tokens: &mut Cursor<'_, Lexeme>) -> Result<Boxed<StmtKind>, ParseStop>
    ensures { Reads (parts.empty_stmt tokens.old) result tokens.new }
{
    tokens.expect(&Class::Semicolon)?;
    Ok(Boxed::new(alloc, StmtKind::Empty)?)
}

// A jump or an expression.
#[inline(never)]
fn other_stmt(
    alloc: Global,
    tokens: &mut Cursor<'_, Lexeme>,
    left: usize,
) -> Result<Boxed<StmtKind>, ParseStop>
    ensures { Reads (spec.jump_stmt left (deeper left) tokens.old) result tokens.new }
{
    let kind = jump_stmt(alloc, tokens, left)?;
    Ok(Boxed::new(alloc, kind)?)
}

impl<R: Nested> Statements<R> {
    #[inline(never)]
    fn block_stmt(&self, tokens: &mut Cursor<'_, Lexeme>) -> Result<Boxed<StmtKind>, ParseStop>
        requires ready { R.ready self.now.rules self.now.left }
        ensures { Reads (parts.block_stmt self.now.left tokens.old) result tokens.new }
    {
        let block = self.block(tokens)?;
        Ok(Boxed::new(self.alloc, StmtKind::Block(block))?)
    }

    #[inline(never)]
    #[tactic(auto, unfolding(cx_syntax_stmts::specs::Readers::loop_stmt))]
    fn loop_stmt(&self, tokens: &mut Cursor<'_, Lexeme>) -> Result<Boxed<StmtKind>, ParseStop>
        requires ready { R.ready self.now.rules self.now.left }
        ensures { Reads (spec.loop_stmt self.now.left (deeper self.now.left) tokens.old) result tokens.new }
    {
        if tokens.sees(&Class::While) {
            self.while_stmt(tokens)
        } else if tokens.sees(&Class::Do) {
            self.do_stmt(tokens)
        } else if tokens.sees(&Class::For) {
            self.for_stmt(tokens)
        } else if tokens.sees(&Class::Switch) {
            self.switch_stmt(tokens)
        } else {
            other_stmt(self.alloc, tokens, self.left)
        }
    }

    /// A statement behind its attributes.
    #[inline(never)]
    #[tactic(auto, unfolding(cx_syntax_stmts::specs::Readers::stmt_kind, cx_syntax_stmts::specs::Readers::empty_stmt))]
    pub fn stmt_kind(&self, tokens: &mut Cursor<'_, Lexeme>) -> Result<Boxed<StmtKind>, ParseStop>
        requires ready { R.ready self.now.rules self.now.left }
        ensures { Reads (spec.stmt_kind self.now.left (deeper self.now.left) tokens.old) result tokens.new }
    {
        if tokens.sees(&Class::OpenBrace) {
            self.block_stmt(tokens)
        } else if tokens.sees(&Class::Semicolon) {
            empty_stmt(self.alloc, tokens)
        } else if tokens.sees(&Class::If) {
            self.if_stmt(tokens)
        } else {
            self.loop_stmt(tokens)
        }
    }

    /// A statement ([stmt.stmt]).
    #[inline(never)]
    #[tactic(auto, unfolding(cx_syntax_stmts::specs::Readers::stmt_with))]
    pub fn stmt(&self, tokens: &mut Cursor<'_, Lexeme>) -> Result<Boxed<Stmt>, ParseStop>
        requires ready { R.ready self.now.rules self.now.left }
        ensures { Reads (spec.stmt self.now.left tokens.old) result tokens.new }
    {
        let from = tokens.rest();
        let attrs = attrs(tokens, self.left)?;
        let kind = self.stmt_kind(tokens)?;
        let span = span_of(tokens.since(from));
        Ok(stmt_of(self.alloc, attrs, kind, span)?)
    }
}
