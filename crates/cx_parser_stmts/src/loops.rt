//! `while`, `do` and `for` ([stmt.iter]).

ghost use Rattle.std.specs.Prelude.{◌≡◌, true, IfOk};
ghost use Rattle.cx_grammar.specs.Reads.{Reads};
ghost use Rattle.cx_parser_stmts.specs.Parts as parts;
ghost use Rattle.cx_syntax_stmts.specs.Readers as spec;
ghost use Rattle.cx_syntax_stmts.specs.Readers.{deeper};
ghost use Rattle.cx_syntax_stmts.specs.Values as values;

use crate::exprs::{condition, place, unboxed};
use crate::for_heads::for_head;
use crate::statements::{Nested, Statements};
use cx_base::Span;
use cx_grammar::{Cursor, ParseStop};
use cx_syntax::{Class, Lexeme};
use cx_syntax_stmts::ForHead;
use cx_tree::{Expr, Stmt, StmtKind};
use sqlite_items::Boxed;
use std::alloc::{AllocError, Global};

#[inline(never)]
fn while_of(
    alloc: Global,
    at: Span,
    test: Boxed<Expr>,
    body: Boxed<Stmt>,
) -> Result<Boxed<StmtKind>, AllocError>
    ensures { IfOk result (λ k. k ≡ values.while_of (at, (test, body))) }
{
    Boxed::new(alloc, StmtKind::While(at, test.into_inner(), body))
}

#[inline(never)]
fn do_of(
    alloc: Global,
    at: Span,
    body: Boxed<Stmt>,
    test: Boxed<Expr>,
) -> Result<Boxed<StmtKind>, AllocError>
    ensures { IfOk result (λ k. k ≡ values.do_of (at, (body, test))) }
{
    Boxed::new(alloc, StmtKind::Do(at, body, test.into_inner()))
}

#[inline(never)]
fn for_of(
    alloc: Global,
    at: Span,
    head: Boxed<ForHead>,
    body: Boxed<Stmt>,
) -> Result<Boxed<StmtKind>, AllocError>
    ensures { IfOk result (λ k. k ≡ values.for_by at head body) }
{
    let kind = match head.into_inner() {
        ForHead::Steps(start, test, step) => StmtKind::For(
            at,
            start.into_inner(),
            unboxed(test),
            unboxed(step),
            body,
        ),
        ForHead::Range(specs, ptrs, name, range) => StmtKind::ForRange(
            at,
            specs.into_inner(),
            ptrs,
            name,
            range.into_inner(),
            body,
        ),
    };
    Boxed::new(alloc, kind)
}

// `for` and what stands in its parentheses.
#[inline(never)]
fn for_begin(
    alloc: Global,
    tokens: &mut Cursor<'_, Lexeme>,
    left: usize,
) -> Result<(Span, Boxed<ForHead>), ParseStop>
    ensures { Reads (parts.for_begin left tokens.old) result tokens.new }
{
    let at = place(tokens, Class::For)?;
    tokens.expect(&Class::OpenParen)?;
    let head = for_head(alloc, tokens, left)?;
    tokens.expect(&Class::CloseParen)?;
    Ok((at, head))
}

// `while`, the condition and `;` behind the statement of a `do`.
#[inline(never)]
fn do_end(
    alloc: Global,
    tokens: &mut Cursor<'_, Lexeme>,
    left: usize,
) -> Result<Boxed<Expr>, ParseStop>
    ensures { Reads (parts.do_end left tokens.old) result tokens.new }
{
    tokens.expect(&Class::While)?;
    let test = condition(alloc, tokens, left)?;
    tokens.expect(&Class::Semicolon)?;
    Ok(test)
}

impl<R: Nested> Statements<R> {
    /// `while` ([stmt.while]).
    #[inline(never)]
    #[tactic(auto, unfolding(cx_syntax_stmts::specs::Readers::while_stmt))]
    pub fn while_stmt(&self, tokens: &mut Cursor<'_, Lexeme>) -> Result<Boxed<StmtKind>, ParseStop>
        requires ready { R.ready self.now.rules self.now.left }
        ensures { Reads (spec.while_stmt self.now.left (deeper self.now.left) tokens.old) result tokens.new }
    {
        if !self.room() {
            return Err(tokens.too_deep());
        }
        let at = place(tokens, Class::While)?;
        let test = condition(self.alloc, tokens, self.left)?;
        let body = self.rules.stmt(self.alloc, tokens, self.left)?;
        Ok(while_of(self.alloc, at, test, body)?)
    }

    /// `do` ([stmt.do]).
    #[inline(never)]
    #[tactic(auto, unfolding(cx_syntax_stmts::specs::Readers::do_stmt))]
    pub fn do_stmt(&self, tokens: &mut Cursor<'_, Lexeme>) -> Result<Boxed<StmtKind>, ParseStop>
        requires ready { R.ready self.now.rules self.now.left }
        ensures { Reads (spec.do_stmt self.now.left (deeper self.now.left) tokens.old) result tokens.new }
    {
        if !self.room() {
            return Err(tokens.too_deep());
        }
        let at = place(tokens, Class::Do)?;
        let body = self.rules.stmt(self.alloc, tokens, self.left)?;
        let test = do_end(self.alloc, tokens, self.left)?;
        Ok(do_of(self.alloc, at, body, test)?)
    }

    /// `for` ([stmt.for], [stmt.ranged]).
    #[inline(never)]
    #[tactic(auto, unfolding(cx_syntax_stmts::specs::Readers::for_stmt))]
    pub fn for_stmt(&self, tokens: &mut Cursor<'_, Lexeme>) -> Result<Boxed<StmtKind>, ParseStop>
        requires ready { R.ready self.now.rules self.now.left }
        ensures { Reads (spec.for_stmt self.now.left (deeper self.now.left) tokens.old) result tokens.new }
    {
        if !self.room() {
            return Err(tokens.too_deep());
        }
        let (at, head) = for_begin(self.alloc, tokens, self.left)?;
        let body = self.rules.stmt(self.alloc, tokens, self.left)?;
        Ok(for_of(self.alloc, at, head, body)?)
    }
}
