//! The bases of a class ([class.derived]).

ghost use Rattle.std.specs.Prelude.{◌≡◌};
ghost use Rattle.cx_grammar.specs.Reads.{Reads};
ghost use Rattle.cx_parser_decls.specs.Parts as parts;
ghost use Rattle.cx_syntax_decls.specs.Readers as spec;

use cx_base::List;
use cx_grammar::{Cursor, ParseStop, Part};
use cx_parser_names::{qtype, read_more};
use cx_parser_vars::{AnyAccess, access, attrs};
use cx_syntax::{Class, Lexeme, span_of};
use cx_tree::{Access, Base};
use std::alloc::Global;

fn maybe_access(tokens: &mut Cursor<'_, Lexeme>) -> Result<Option<Access>, ParseStop>
    ensures { Reads (parts.maybe_access tokens.old) result tokens.new }
{
    if !tokens.sees(&AnyAccess) {
        return Ok(None);
    }
    Ok(Some(access(tokens)?))
}

#[inline(never)]
#[tactic(auto, unfolding(cx_syntax_decls::specs::Readers::base))]
fn base(alloc: Global, tokens: &mut Cursor<'_, Lexeme>, left: usize) -> Result<Base, ParseStop>
    ensures { Reads (spec.base left tokens.old) result tokens.new }
{
    let from = tokens.rest();
    let attrs = attrs(tokens, left)?;
    let access = maybe_access(tokens)?;
    let name = qtype(alloc, tokens)?;
    Ok(Base {
        attrs,
        access,
        name,
        span: span_of(tokens.since(from)),
    })
}

/// One base more, as a part that a loop reads.
#[derive(Drop)]
struct OtherBase {
    alloc: Global,
    left: usize,
}

impl Part<Lexeme> for OtherBase {
    type Value = Base;

    ghost ready = { λ _. Unit {0} };

    ghost reader = { λ s. spec.other_base s.left };

    fn read(&self, tokens: &mut Cursor<'_, Lexeme>) -> Result<Base, ParseStop> {
        tokens.expect(&Class::Comma)?;
        base(self.alloc, tokens, self.left)
    }
}

/// The bases of a class with so many levels left, if it has any ([class.derived]).
#[inline(never)]
#[tactic(auto, unfolding(cx_syntax_decls::specs::Readers::bases))]
pub fn maybe_bases(
    alloc: Global,
    tokens: &mut Cursor<'_, Lexeme>,
    left: usize,
) -> Result<Option<List<Base>>, ParseStop>
    ensures { Reads (spec.maybe_bases left tokens.old) result tokens.new }
{
    if !tokens.sees(&Class::Colon) {
        return Ok(None);
    }
    tokens.expect(&Class::Colon)?;
    let mut first = List::new(alloc);
    first.push(base(alloc, tokens, left)?)?;
    let others = OtherBase { alloc, left };
    Ok(Some(read_more(tokens, first, &Class::Comma, &others)?))
}
