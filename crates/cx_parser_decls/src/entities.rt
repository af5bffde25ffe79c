//! Variables or a function ([dcl.decl], [dcl.fct]).

ghost use Rattle.std.specs.Prelude.{◌≡◌};
ghost use Rattle.cx_grammar.specs.Reads.{Reads};
ghost use Rattle.cx_syntax_decls.specs.Readers as spec;

use crate::ahead::{NamedNext, behind_ptrs, function_ahead};
use crate::functions::function;
use cx_ahead::{Id, behind, type_fault};
use cx_grammar::{Cursor, ParseStop};
use cx_parser_vars::{attrs, room, specs_before, vars};
use cx_syntax::{Class, Lexeme};
use cx_tree::{Entity, EntityKind, Specs};
use std::alloc::Global;

/// Variables, where `declarator` is what stands behind `*` and `&`. At the last level a name has no arguments behind it.
#[tactic(auto, unfolding(cx_syntax_decls::specs::Readers::vars_end))]
fn variables_by(
    alloc: Global,
    tokens: &mut Cursor<'_, Lexeme>,
    left: usize,
    declarator: &[Lexeme],
) -> Result<EntityKind, ParseStop>
    ensures { Reads (spec.variables_by left declarator.now tokens.old) result tokens.new }
{
    if Cursor::new(declarator).sees_two(&Id, &Class::OpenParen) && !room(left) {
        return Err(type_fault(behind(behind(declarator))));
    }
    let found = vars(alloc, tokens, left)?;
    tokens.expect(&Class::Semicolon)?;
    Ok(EntityKind::Vars(found))
}

#[tactic(auto, unfolding(cx_syntax_decls::specs::Readers::entity_kind))]
fn entity_kind(
    alloc: Global,
    tokens: &mut Cursor<'_, Lexeme>,
    left: usize,
) -> Result<EntityKind, ParseStop>
    ensures { Reads (spec.entity_kind left tokens.old) result tokens.new }
{
    let declarator = behind_ptrs(alloc, tokens.rest())?;
    if function_ahead(declarator) {
        Ok(EntityKind::Function(function(alloc, tokens, left)?))
    } else {
        variables_by(alloc, tokens, left, declarator)
    }
}

/// Variables or a function behind their attributes.
#[inline(never)]
#[tactic(auto, unfolding(cx_syntax_decls::specs::Readers::entity_end))]
pub fn entity_end(
    alloc: Global,
    tokens: &mut Cursor<'_, Lexeme>,
    left: usize,
) -> Result<(Specs, EntityKind), ParseStop>
    ensures { Reads (spec.entity_end left tokens.old) result tokens.new }
{
    let specs = specs_before(alloc, tokens, &NamedNext)?;
    let kind = entity_kind(alloc, tokens, left)?;
    Ok((specs, kind))
}

/// Variables or a function with so many levels left ([dcl.decl], [dcl.fct]).
#[inline(never)]
#[tactic(auto, unfolding(cx_syntax_decls::specs::Readers::entity))]
pub fn entity(
    alloc: Global,
    tokens: &mut Cursor<'_, Lexeme>,
    left: usize,
) -> Result<Entity, ParseStop>
    ensures { Reads (spec.entity left tokens.old) result tokens.new }
{
    let attrs = attrs(tokens, left)?;
    let (specs, kind) = entity_end(alloc, tokens, left)?;
    Ok(Entity { attrs, specs, kind })
}
