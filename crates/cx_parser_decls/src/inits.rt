//! Member initializers ([class.base.init]).

ghost use Rattle.std.specs.Prelude.{◌≡◌};
ghost use Rattle.cx_grammar.specs.Reads.{Reads};
ghost use Rattle.cx_syntax_decls.specs.Readers as spec;

use cx_ahead::{Id, behind, sees};
use cx_base::List;
use cx_grammar::{Cursor, ParseStop, Part};
use cx_parser::given;
use cx_parser_names::{ident, qtype, read_more};
use cx_syntax::{Class, Lexeme, span_of};
use cx_tree::{MemberInit, MemberName};
use std::alloc::Global;

#[tactic(auto, unfolding(cx_syntax_decls::specs::Readers::member_name))]
fn member_name(alloc: Global, tokens: &mut Cursor<'_, Lexeme>) -> Result<MemberName, ParseStop>
    ensures { Reads (spec.member_name tokens.old) result tokens.new }
{
    let ahead = tokens.rest();
    if sees(&Id, ahead) && !sees(&Class::ColonColon, behind(ahead)) {
        Ok(MemberName::Ident(ident(alloc, tokens, &Id)?))
    } else {
        Ok(MemberName::Type(qtype(alloc, tokens)?))
    }
}

#[inline(never)]
#[tactic(auto, unfolding(cx_syntax_decls::specs::Readers::minit))]
fn minit(
    alloc: Global,
    tokens: &mut Cursor<'_, Lexeme>,
    left: usize,
) -> Result<MemberInit, ParseStop>
    ensures { Reads (spec.minit left tokens.old) result tokens.new }
{
    let from = tokens.rest();
    let name = member_name(alloc, tokens)?;
    let given = given(alloc, tokens, left)?;
    Ok(MemberInit {
        name,
        given,
        span: span_of(tokens.since(from)),
    })
}

/// One member initializer more, as a part that a loop reads.
#[derive(Drop)]
struct OtherMinit {
    alloc: Global,
    left: usize,
}

impl Part<Lexeme> for OtherMinit {
    type Value = MemberInit;

    ghost ready = { λ _. Unit {0} };

    ghost reader = { λ s. spec.other_minit s.left };

    fn read(&self, tokens: &mut Cursor<'_, Lexeme>) -> Result<MemberInit, ParseStop> {
        tokens.expect(&Class::Comma)?;
        minit(self.alloc, tokens, self.left)
    }
}

/// The member initializers of a constructor, if it has any.
#[inline(never)]
#[tactic(auto, unfolding(cx_syntax_decls::specs::Readers::minits))]
pub fn maybe_minits(
    alloc: Global,
    tokens: &mut Cursor<'_, Lexeme>,
    left: usize,
) -> Result<Option<List<MemberInit>>, ParseStop>
    ensures { Reads (spec.maybe_minits left tokens.old) result tokens.new }
{
    if !tokens.sees(&Class::Colon) {
        return Ok(None);
    }
    tokens.expect(&Class::Colon)?;
    let mut first = List::new(alloc);
    first.push(minit(alloc, tokens, left)?)?;
    let others = OtherMinit { alloc, left };
    Ok(Some(read_more(tokens, first, &Class::Comma, &others)?))
}
