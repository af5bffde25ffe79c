//! `if` and `switch` ([stmt.select]).

ghost use Rattle.std.specs.Prelude.{◌≡◌, true, IfOk};
ghost use Rattle.cx_grammar.specs.Reads.{Reads};
ghost use Rattle.cx_parser_stmts.specs.Parts as parts;
ghost use Rattle.cx_syntax_stmts.specs.Readers as spec;
ghost use Rattle.cx_syntax_stmts.specs.Readers.{deeper};
ghost use Rattle.cx_syntax_stmts.specs.Values as values;

use crate::exprs::condition;
use crate::labels::label;
use crate::sets::{StartsLabel, StartsSwitchItem};
use crate::statements::{Nested, Statements};
use cx_base::List;
use cx_grammar::{Cursor, ParseStop, Part, read_many};
use cx_parser_names::{is_there, maybe_one};
use cx_syntax::{Class, Lexeme};
use cx_tree::{Expr, Stmt, StmtKind, SwitchItem};
use sqlite_items::Boxed;
use std::alloc::{AllocError, Global};

/// What stands before `else`: whether `constexpr` does, the condition and the statement.
type Condition = (Option<()>, (Boxed<Expr>, Boxed<Stmt>));

#[inline(never)]
fn if_of(
    alloc: Global,
    head: Condition,
    other: Option<Boxed<Stmt>>,
) -> Result<Boxed<StmtKind>, AllocError>
    ensures { IfOk result (λ k. k ≡ values.if_of (head, other)) }
{
    let (word, (test, body)) = head;
    let kind = StmtKind::If(is_there(word), test.into_inner(), body, other);
    Boxed::new(alloc, kind)
}

#[inline(never)]
fn switch_of(
    alloc: Global,
    test: Boxed<Expr>,
    items: List<SwitchItem>,
) -> Result<Boxed<StmtKind>, AllocError>
    ensures { IfOk result (λ k. k ≡ values.switch_of (test, items)) }
{
    Boxed::new(alloc, StmtKind::Switch(test.into_inner(), items))
}

impl<R: Nested> Statements<R> {
    #[inline(never)]
    fn if_part(&self, tokens: &mut Cursor<'_, Lexeme>) -> Result<Condition, ParseStop>
        requires room { spec.room self.now.left ≡ true }
        requires ready { R.ready self.now.rules self.now.left }
        ensures { Reads (spec.if_part self.now.left (deeper self.now.left) tokens.old) result tokens.new }
    {
        tokens.expect(&Class::If)?;
        let word = maybe_one(tokens, Class::Constexpr)?;
        let test = condition(self.alloc, tokens, self.left)?;
        let body = self.rules.stmt(self.alloc, tokens, self.left)?;
        Ok((word, (test, body)))
    }

    #[inline(never)]
    fn else_part(&self, tokens: &mut Cursor<'_, Lexeme>) -> Result<Boxed<Stmt>, ParseStop>
        requires room { spec.room self.now.left ≡ true }
        requires ready { R.ready self.now.rules self.now.left }
        ensures { Reads (spec.else_part self.now.left (deeper self.now.left) tokens.old) result tokens.new }
    {
        tokens.expect(&Class::Else)?;
        self.rules.stmt(self.alloc, tokens, self.left)
    }

    /// `if`: an `else` behind its statement is its own ([stmt.if]).
    #[inline(never)]
    #[tactic(auto, unfolding(cx_syntax_stmts::specs::Readers::if_stmt))]
    pub fn if_stmt(&self, tokens: &mut Cursor<'_, Lexeme>) -> Result<Boxed<StmtKind>, ParseStop>
        requires ready { R.ready self.now.rules self.now.left }
        ensures { Reads (spec.if_stmt self.now.left (deeper self.now.left) tokens.old) result tokens.new }
    {
        if !self.room() {
            return Err(tokens.too_deep());
        }
        let head = self.if_part(tokens)?;
        if !tokens.sees(&Class::Else) {
            return Ok(if_of(self.alloc, head, None)?);
        }
        let other = self.else_part(tokens)?;
        Ok(if_of(self.alloc, head, Some(other))?)
    }

    // Labels and items in braces.
    #[inline(never)]
    fn switch_body(&self, tokens: &mut Cursor<'_, Lexeme>) -> Result<List<SwitchItem>, ParseStop>
        requires room { spec.room self.now.left ≡ true }
        requires ready { R.ready self.now.rules self.now.left }
        ensures { Reads (parts.switch_body self.now.left tokens.old) result tokens.new }
    {
        tokens.expect(&Class::OpenBrace)?;
        let items = read_many(
            self.alloc,
            tokens,
            &StartsSwitchItem,
            &SwitchPart { statements: self },
        )?;
        tokens.expect(&Class::CloseBrace)?;
        Ok(items)
    }

    /// `switch` ([stmt.switch]).
    #[inline(never)]
    #[tactic(auto, unfolding(cx_syntax_stmts::specs::Readers::switch_stmt))]
    pub fn switch_stmt(&self, tokens: &mut Cursor<'_, Lexeme>) -> Result<Boxed<StmtKind>, ParseStop>
        requires ready { R.ready self.now.rules self.now.left }
        ensures { Reads (spec.switch_stmt self.now.left (deeper self.now.left) tokens.old) result tokens.new }
    {
        if !self.room() {
            return Err(tokens.too_deep());
        }
        tokens.expect(&Class::Switch)?;
        let test = condition(self.alloc, tokens, self.left)?;
        let items = self.switch_body(tokens)?;
        Ok(switch_of(self.alloc, test, items)?)
    }
}

/// What stands in the braces of a `switch`, as a part that a loop reads.
#[derive(Drop)]
struct SwitchPart<'g, R> {
    statements: &'g Statements<R>,
}

impl<'g, R: Nested> Part<Lexeme> for SwitchPart<'g, R> {
    type Value = SwitchItem;

    ghost ready = { λ s. (spec.room s.statements.now.left ≡ true) × R.ready s.statements.now.rules s.statements.now.left };

    ghost reader = { λ s. spec.switch_item s.statements.now.left (deeper s.statements.now.left) };

    #[tactic(auto, unfolding(cx_syntax_stmts::specs::Readers::switch_item))]
    fn read(&self, tokens: &mut Cursor<'_, Lexeme>) -> Result<SwitchItem, ParseStop> {
        let statements = self.statements;
        if tokens.sees(&StartsLabel) {
            let label = label(statements.alloc, tokens, statements.left)?;
            Ok(SwitchItem::Label(label))
        } else {
            let item = statements
                .rules
                .item(statements.alloc, tokens, statements.left)?;
            Ok(SwitchItem::Item(item.into_inner()))
        }
    }
}
