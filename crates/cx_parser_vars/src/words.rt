//! Words of a declaration ([dcl.fct.def], [class.virtual], [class.access]).

ghost use Rattle.std.specs.Prelude.{◌≡◌};
ghost use Rattle.cx_grammar.specs.Reads.{Reads};
ghost use Rattle.cx_syntax_parts.specs.Readers as spec;

use crate::sets::{AccessIn, AnyVirtual, TailIn, VirtualIn};
use cx_base::List;
use cx_grammar::{Cursor, ParseStop, read_many};
use cx_parser_names::Taken;
use cx_syntax::{Class, Lexeme};
use cx_tree::{Access, Tail, Virtual};
use std::alloc::Global;

/// The end of a declaration without a block: `;`, or `= default;` and its like.
#[tactic(auto, unfolding(cx_syntax_parts::specs::Readers::tail))]
pub fn tail(tokens: &mut Cursor<'_, Lexeme>) -> Result<Tail, ParseStop>
    ensures { Reads (spec.tail tokens.old) result tokens.new }
{
    if tokens.sees(&Class::Semicolon) {
        tokens.expect(&Class::Semicolon)?;
        return Ok(Tail::Plain);
    }
    tokens.expect(&Class::Equal)?;
    let end = tokens.take(&TailIn)?;
    tokens.expect(&Class::Semicolon)?;
    Ok(end)
}

/// The words behind a member function.
#[tactic(auto, unfolding(cx_syntax_parts::specs::Readers::virt))]
pub fn virt(alloc: Global, tokens: &mut Cursor<'_, Lexeme>) -> Result<List<Virtual>, ParseStop>
    ensures { Reads (spec.virt tokens.old) result tokens.new }
{
    read_many(alloc, tokens, &AnyVirtual, &Taken { pick: VirtualIn })
}

/// The access of a member or base.
pub fn access(tokens: &mut Cursor<'_, Lexeme>) -> Result<Access, ParseStop>
    ensures { Reads (spec.access tokens.old) result tokens.new }
{
    tokens.take(&AccessIn)
}
