//! Members and classes with so many levels left ([class]).

ghost use Rattle.std.specs.Prelude.{◌≡◌};
ghost use Rattle.cx_grammar.specs.Reads.{Reads};
ghost use Rattle.cx_syntax_decls.specs.Readers as spec;

use crate::classes::Classes;
use cx_grammar::{Cursor, ParseStop};
use cx_syntax::Lexeme;
use cx_tree::{Class, Member};
use sqlite_items::Boxed;
use std::alloc::Global;

#[cycle(levels)]
fn member_within(
    alloc: Global,
    tokens: &mut Cursor<'_, Lexeme>,
    left: usize,
) -> Result<Boxed<Member>, ParseStop>
    ensures { Reads (spec.member left tokens.old) result tokens.new }
{
    let grammar = Classes {
        alloc,
        left,
        member: member_within,
    };
    grammar.member(tokens)
}

/// A member of a class ([class.mem]) with so many levels left.
pub fn member(
    alloc: Global,
    tokens: &mut Cursor<'_, Lexeme>,
    left: usize,
) -> Result<Boxed<Member>, ParseStop>
    ensures { Reads (spec.member left tokens.old) result tokens.new }
{
    member_within(alloc, tokens, left)
}

/// A class ([class.pre]) with so many levels left.
pub fn class(
    alloc: Global,
    tokens: &mut Cursor<'_, Lexeme>,
    left: usize,
) -> Result<Class, ParseStop>
    ensures { Reads (spec.class left tokens.old) result tokens.new }
{
    let grammar = Classes {
        alloc,
        left,
        member: member_within,
    };
    grammar.class(tokens)
}
