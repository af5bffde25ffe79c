//! Single tokens as parts that a loop reads.

ghost use Rattle.std.specs.Prelude.{◌≡◌};
ghost use Rattle.cx_grammar.specs.Reading as reading;
ghost use Rattle.cx_grammar.specs.Reading.{Shortens};
ghost use Rattle.cx_grammar.specs.Reads.{Reads};
ghost use Rattle.cx_parser_names.specs.Parts as parts;
ghost use Rattle.cx_syntax.specs.Values as values;

use crate::names::piece;
use cx_base::{List, Text};
use cx_grammar::{Cursor, ParseStop, Part, Pick, Test};
use cx_syntax::Lexeme;
use std::alloc::Global;

/// What one token gives.
pub struct Taken<P> {
    pub pick: P,
}

impl<P: Pick<Lexeme>> Part<Lexeme> for Taken<P> {
    type Value = P::Value;

    ghost ready = { λ _. Unit {0} };

    ghost reader = { λ s. reading.token (P.picks s.pick) };

    fn read(&self, tokens: &mut Cursor<'_, Lexeme>) -> Result<P::Value, ParseStop> {
        tokens.take(&self.pick)
    }
}

/// A string's text.
pub struct Piece;

impl Part<Lexeme> for Piece {
    type Value = Text;

    ghost use Rattle.cx_parser_names.specs.Parts.{piece};

    ghost ready = { λ _. Unit {0} };

    ghost reader = { λ _. piece };

    fn read(&self, tokens: &mut Cursor<'_, Lexeme>) -> Result<Text, ParseStop> {
        piece(tokens)
    }
}

/// The first ones, and the part as often as the next token passes the test.
pub fn read_more<P: Test<Lexeme>, R: Part<Lexeme>>(
    tokens: &mut Cursor<'_, Lexeme>,
    first: List<R::Value>,
    test: &P,
    part: &R,
) -> Result<List<R::Value>, ParseStop>
where
    R::Value: Drop,
    requires ready { R.ready part.now }
    requires shortens { Shortens (R.reader part.now) }
    ensures { Reads (parts.more_behind (P.holds test.now) (R.reader part.now) first tokens.old) result tokens.new }
{
    let mut found = first;
    while tokens.sees(test) {
        found.push(part.read(tokens)?)?;
    }
    Ok(found)
}

/// What was found, or nothing.
pub fn or_none<T: Drop>(alloc: Global, found: Option<List<T>>) -> List<T>
    ensures { result ≡ values.or_none found }
{
    match found {
        Some(found) => found,
        None => List::new(alloc),
    }
}
