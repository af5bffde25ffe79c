//! Declarations and units with so many levels left ([dcl.pre], [basic.link]).

ghost use Rattle.std.specs.Prelude.{◌≡◌};
ghost use Rattle.cx_grammar.specs.Answers.{Answers};
ghost use Rattle.cx_grammar.specs.Reads.{Reads};
ghost use Rattle.cx_syntax_decls.specs.Readers as spec;
ghost use Rattle.cx_syntax_decls.specs.Symbols as symbols;

use crate::decls::Spaces;
use crate::sets::StartsDecl;
use cx_grammar::{Cursor, ParseStop, Part, read_many};
use cx_syntax::{Class, Lexeme};
use cx_tree::{Decl, Unit};
use sqlite_items::Boxed;
use std::alloc::Global;

/// How many levels deep the parts of a unit may nest ([implimits]).
pub const LEVELS: usize = cx_parser::LEVELS;

#[cycle(levels)]
fn decl_within(
    alloc: Global,
    tokens: &mut Cursor<'_, Lexeme>,
    left: usize,
) -> Result<Boxed<Decl>, ParseStop>
    ensures { Reads (spec.decl left tokens.old) result tokens.new }
{
    let grammar = Spaces {
        alloc,
        left,
        decl: decl_within,
    };
    grammar.decl(tokens)
}

/// A declaration ([dcl.pre]) with so many levels left.
pub fn decl(
    alloc: Global,
    tokens: &mut Cursor<'_, Lexeme>,
    left: usize,
) -> Result<Boxed<Decl>, ParseStop>
    ensures { Reads (spec.decl left tokens.old) result tokens.new }
{
    decl_within(alloc, tokens, left)
}

/// A declaration of a unit, as a part that a loop reads.
#[derive(Drop)]
struct UnitDecl {
    alloc: Global,
    left: usize,
}

impl Part<Lexeme> for UnitDecl {
    type Value = Decl;

    ghost ready = { λ _. Unit {0} };

    ghost reader = { λ s. spec.decl s.left };

    fn read(&self, tokens: &mut Cursor<'_, Lexeme>) -> Result<Decl, ParseStop> {
        Ok(decl_within(self.alloc, tokens, self.left)?.into_inner())
    }
}

#[tactic(auto, unfolding(cx_syntax_decls::specs::Readers::unit))]
fn unit(alloc: Global, tokens: &mut Cursor<'_, Lexeme>, left: usize) -> Result<Unit, ParseStop>
    ensures { Reads (spec.unit left tokens.old) result tokens.new }
{
    let decls = read_many(alloc, tokens, &StartsDecl, &UnitDecl { alloc, left })?;
    tokens.expect(&Class::End)?;
    Ok(Unit { decls })
}

/// A unit ([basic.link]) within so many levels: the one tree of all the tokens, or the first token with which they are the front of none.
pub fn within(alloc: Global, lexemes: &[Lexeme], left: usize) -> Result<Unit, ParseStop>
    ensures { Answers symbols.unit left lexemes.now result }
{
    let mut tokens = Cursor::new(lexemes);
    match unit(alloc, &mut tokens, left) {
        Ok(unit) => {
            if tokens.left() != 0 {
                return Err(tokens.refuse());
            }
            Ok(unit)
        }
        Err(stop) => Err(stop),
    }
}

/// The same within 512 levels ([implimits]).
pub fn parse(alloc: Global, lexemes: &[Lexeme]) -> Result<Unit, ParseStop>
    ensures { Answers symbols.unit 512 lexemes.now result }
{
    within(alloc, lexemes, LEVELS)
}
