//! What the tokens ahead tell: whether variables come next, a function or a class ([dcl.fct], [class.pre]).

ghost use Rattle.std.specs.Prelude.{◌≡◌, IfOk};
ghost use Rattle.cx_syntax.specs.Readers as readers;
ghost use Rattle.cx_syntax_decls.specs.Ahead as spec;

use crate::sets::{BeginsBody, BeginsEnd, BeginsParams, BeginsQualified, Final, Key, LeadsTyped};
use cx_ahead::{Id, Type, behind, qtype_ahead, sees};
use cx_base::Memory;
use cx_grammar::{Cursor, ParseStop};
use cx_parser_names::{modifiers, ptrs};
use cx_parser_vars::Follows;
use cx_syntax::{Class, Lexeme};
use std::alloc::Global;

/// What only a type begins with, or a type's name.
pub struct NamedNext;

impl Follows for NamedNext {
    ghost use Rattle.cx_syntax_decls.specs.Ahead.{named_next};

    ghost holds = { λ _ ts. named_next ts };

    fn follows(&self, tokens: &Cursor<'_, Lexeme>) -> bool {
        tokens.sees(&LeadsTyped) || qtype_ahead(tokens.rest())
    }
}

// Whether a function is declared, by what stands behind its name.
fn function_behind(tokens: &[Lexeme]) -> bool
    ensures { result ≡ spec.function_behind tokens.now }
{
    let inside = behind(tokens);
    sees(&Class::ColonColon, tokens)
        || (sees(&Class::OpenParen, tokens) && (sees(&BeginsParams, inside) || qtype_ahead(inside)))
}

/// Whether a function is declared, from behind `*` and `&` on.
pub fn function_ahead(tokens: &[Lexeme]) -> bool
    ensures { result ≡ spec.function_ahead tokens.now }
{
    sees(&BeginsQualified, tokens) || (sees(&Id, tokens) && function_behind(behind(tokens)))
}

/// What stands behind `*` and `&`. Nothing does where they are not read.
pub fn behind_ptrs(alloc: Global, tokens: &[Lexeme]) -> Result<&[Lexeme], Memory>
    ensures { IfOk result (λ rest. rest.now ≡ spec.rest_of (readers.ptrs tokens.now)) }
{
    let mut ahead = Cursor::new(tokens);
    match ptrs(alloc, &mut ahead) {
        Ok(_) => Ok(ahead.rest()),
        Err(ParseStop::Fault(_, _)) => Ok(&[]),
        Err(ParseStop::Memory) => Err(Memory),
    }
}

/// What stands behind modifiers. Nothing does where they are not read.
pub fn behind_modifiers(alloc: Global, tokens: &[Lexeme]) -> Result<&[Lexeme], Memory>
    ensures { IfOk result (λ rest. rest.now ≡ spec.rest_of (readers.modifiers tokens.now)) }
{
    let mut ahead = Cursor::new(tokens);
    match modifiers(alloc, &mut ahead) {
        Ok(_) => Ok(ahead.rest()),
        Err(ParseStop::Fault(_, _)) => Ok(&[]),
        Err(ParseStop::Memory) => Err(Memory),
    }
}

// Whether a class ends its head there: directly, or behind `final`.
fn class_behind(tokens: &[Lexeme]) -> bool
    ensures { result ≡ spec.class_behind tokens.now }
{
    sees(&BeginsEnd, tokens) || Cursor::new(tokens).sees_two(&Final, &BeginsBody)
}

/// Whether a class comes next, and no variable or function of one.
pub fn class_ahead(tokens: &[Lexeme]) -> bool
    ensures { result ≡ spec.class_ahead tokens.now }
{
    let rest = behind(tokens);
    sees(&Key, tokens)
        && (sees(&Class::OpenBracket, rest) || (sees(&Type, rest) && class_behind(behind(rest))))
}
