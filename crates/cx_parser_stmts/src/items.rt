//! What stands in a block ([stmt.dcl]).

ghost use Rattle.std.specs.Prelude.{◌≡◌, IfOk};
ghost use Rattle.cx_grammar.specs.Reads.{Reads};
ghost use Rattle.cx_parser_stmts.specs.Parts as parts;
ghost use Rattle.cx_syntax_stmts.specs.Readers as spec;
ghost use Rattle.cx_syntax_stmts.specs.Readers.{deeper};
ghost use Rattle.cx_syntax_stmts.specs.Values as values;

use crate::ahead::enum_ahead;
use crate::statements::{Nested, Statements};
use cx_ahead::type_ahead;
use cx_base::Span;
use cx_grammar::{Cursor, ParseStop};
use cx_parser_vars::{alias, attrs, declared, enumeration, static_assert, typedef};
use cx_syntax::{Class, Lexeme, span_of};
use cx_syntax_stmts::BehindAttrs;
use cx_tree::{Item, Local, Stmt, StmtKind};
use sqlite_items::Boxed;
use std::alloc::{AllocError, Global};

#[inline(never)]
fn assert_item(
    alloc: Global,
    tokens: &mut Cursor<'_, Lexeme>,
    left: usize,
) -> Result<Boxed<Item>, ParseStop>
    ensures { Reads (parts.assert_item left tokens.old) result tokens.new }
{
    let assert = static_assert(alloc, tokens, left)?;
    Ok(Boxed::new(alloc, Item::Assert(assert))?)
}

#[inline(never)]
fn alias_item(
    alloc: Global,
    tokens: &mut Cursor<'_, Lexeme>,
    left: usize,
) -> Result<Boxed<Item>, ParseStop>
    ensures { Reads (parts.alias_item left tokens.old) result tokens.new }
{
    let alias = alias(alloc, tokens, left)?;
    Ok(Boxed::new(alloc, Item::Alias(alias))?)
}

#[inline(never)]
fn typedef_item(alloc: Global, tokens: &mut Cursor<'_, Lexeme>) -> Result<Boxed<Item>, ParseStop>
    ensures { Reads (parts.typedef_item tokens.old) result tokens.new }
{
    let typedef = typedef(alloc, tokens)?;
    Ok(Boxed::new(alloc, Item::Typedef(typedef))?)
}

#[inline(never)]
fn enum_item(
    alloc: Global,
    tokens: &mut Cursor<'_, Lexeme>,
    left: usize,
) -> Result<Boxed<Item>, ParseStop>
    ensures { Reads (parts.enum_item left tokens.old) result tokens.new }
{
    let enumeration = enumeration(alloc, tokens, left)?;
    Ok(Boxed::new(alloc, Item::Enum(enumeration))?)
}

// Variables behind attributes.
#[inline(never)]
fn vars_behind(
    alloc: Global,
    tokens: &mut Cursor<'_, Lexeme>,
    left: usize,
) -> Result<Boxed<BehindAttrs>, ParseStop>
    ensures { Reads (parts.vars_behind left tokens.old) result tokens.new }
{
    let (specs, vars) = declared(alloc, tokens, left)?;
    Ok(Boxed::new(alloc, BehindAttrs::Vars(specs, vars))?)
}

#[inline(never)]
fn behind_of(alloc: Global, kind: Boxed<StmtKind>) -> Result<Boxed<BehindAttrs>, AllocError>
    ensures { IfOk result (λ b. b ≡ BehindAttrs.Stmt kind) }
{
    Boxed::new(alloc, BehindAttrs::Stmt(kind.into_inner()))
}

#[inline(never)]
fn plain_of(
    alloc: Global,
    attrs: u32,
    behind: Boxed<BehindAttrs>,
    span: Span,
) -> Result<Boxed<Item>, AllocError>
    ensures { IfOk result (λ i. i ≡ values.plain_by attrs behind span) }
{
    let item = match behind.into_inner() {
        BehindAttrs::Stmt(kind) => Item::Stmt(Stmt { attrs, kind, span }),
        BehindAttrs::Vars(specs, vars) => Item::Local(Local {
            attrs,
            specs,
            vars,
            span,
        }),
    };
    Boxed::new(alloc, item)
}

impl<R: Nested> Statements<R> {
    #[inline(never)]
    #[tactic(auto, unfolding(cx_syntax_stmts::specs::Readers::behind_attrs))]
    fn behind_attrs(&self, tokens: &mut Cursor<'_, Lexeme>) -> Result<Boxed<BehindAttrs>, ParseStop>
        requires ready { R.ready self.now.rules self.now.left }
        ensures { Reads (spec.behind_attrs self.now.left (deeper self.now.left) tokens.old) result tokens.new }
    {
        if type_ahead(tokens.rest()) {
            vars_behind(self.alloc, tokens, self.left)
        } else {
            let kind = self.stmt_kind(tokens)?;
            Ok(behind_of(self.alloc, kind)?)
        }
    }

    #[inline(never)]
    #[tactic(auto, unfolding(cx_syntax_stmts::specs::Readers::plain_item))]
    fn plain_item(&self, tokens: &mut Cursor<'_, Lexeme>) -> Result<Boxed<Item>, ParseStop>
        requires ready { R.ready self.now.rules self.now.left }
        ensures { Reads (spec.plain_item self.now.left (deeper self.now.left) tokens.old) result tokens.new }
    {
        let from = tokens.rest();
        let attrs = attrs(tokens, self.left)?;
        let behind = self.behind_attrs(tokens)?;
        let span = span_of(tokens.since(from));
        Ok(plain_of(self.alloc, attrs, behind, span)?)
    }

    /// What stands in a block ([stmt.dcl]).
    #[inline(never)]
    #[tactic(auto, unfolding(cx_syntax_stmts::specs::Readers::item_with))]
    pub fn item(&self, tokens: &mut Cursor<'_, Lexeme>) -> Result<Boxed<Item>, ParseStop>
        requires ready { R.ready self.now.rules self.now.left }
        ensures { Reads (spec.item self.now.left tokens.old) result tokens.new }
    {
        if tokens.sees(&Class::StaticAssert) {
            assert_item(self.alloc, tokens, self.left)
        } else if tokens.sees(&Class::Using) {
            alias_item(self.alloc, tokens, self.left)
        } else if tokens.sees(&Class::Typedef) {
            typedef_item(self.alloc, tokens)
        } else if enum_ahead(tokens.rest()) {
            enum_item(self.alloc, tokens, self.left)
        } else {
            self.plain_item(tokens)
        }
    }
}
