//! Labels of a `switch` ([stmt.label]).

ghost use Rattle.std.specs.Prelude.{◌≡◌};
ghost use Rattle.cx_grammar.specs.Reads.{Reads};
ghost use Rattle.cx_parser_stmts.specs.Parts as parts;
ghost use Rattle.cx_syntax_stmts.specs.Readers as spec;

use cx_grammar::{Cursor, ParseStop};
use cx_parser::cond;
use cx_syntax::{Class, Lexeme, span_of};
use cx_tree::{Label, LabelKind};
use std::alloc::Global;

#[inline(never)]
#[tactic(auto, unfolding(cx_syntax_stmts::specs::Readers::case_label, cx_syntax_stmts::specs::Readers::default_label))]
fn label_kind(
    alloc: Global,
    tokens: &mut Cursor<'_, Lexeme>,
    left: usize,
) -> Result<LabelKind, ParseStop>
    ensures { Reads (parts.label_kind left tokens.old) result tokens.new }
{
    if tokens.sees(&Class::Case) {
        tokens.expect(&Class::Case)?;
        let value = cond(alloc, tokens, left)?;
        tokens.expect(&Class::Colon)?;
        Ok(LabelKind::Case(value.into_inner()))
    } else {
        tokens.expect(&Class::Default)?;
        tokens.expect(&Class::Colon)?;
        Ok(LabelKind::Default)
    }
}

/// A label of a `switch` with so many levels left ([stmt.label]).
#[inline(never)]
#[tactic(auto, unfolding(cx_syntax_stmts::specs::Readers::label))]
pub fn label(
    alloc: Global,
    tokens: &mut Cursor<'_, Lexeme>,
    left: usize,
) -> Result<Label, ParseStop>
    ensures { Reads (spec.label left tokens.old) result tokens.new }
{
    let from = tokens.rest();
    let kind = label_kind(alloc, tokens, left)?;
    Ok(Label {
        kind,
        span: span_of(tokens.since(from)),
    })
}
