//! Loops that read a part again and again, each proved once for all parts.

ghost use Rattle.std.specs.Prelude.{◌≡◌};
ghost use Rattle.cx_grammar.specs.Reading as reading;
ghost use Rattle.cx_grammar.specs.Reading.{Shortens};
ghost use Rattle.cx_grammar.specs.Reads.{Reads};

use crate::cursor::{Cursor, Test};
use crate::stop::ParseStop;
use cx_base::List;
use std::alloc::Global;

/// A part that a loop reads, as a comma and an item.
pub trait Part<T> {
    type Value;

    ghost use Rattle.cx_grammar.specs.Reading.{Reader};

    ghost ready: { Self → Type 0 };

    ghost reader: { Self → Reader T Self.Value };

    /// Reads the part.
    fn read(&self, tokens: &mut Cursor<'_, T>) -> Result<Self::Value, ParseStop>
        requires { ready self.now }
        ensures { Reads (reader self.now tokens.old) result tokens.new };
}

/// The part as often as the next token passes the test.
pub fn read_many<T, P: Test<T>, R: Part<T>>(
    alloc: Global,
    tokens: &mut Cursor<'_, T>,
    test: &P,
    part: &R,
) -> Result<List<R::Value>, ParseStop>
where
    R::Value: Drop,
    requires ready { R.ready part.now }
    requires shortens { Shortens (R.reader part.now) }
    ensures { Reads (reading.many_of (P.holds test.now) (R.reader part.now) tokens.old) result tokens.new }
{
    let mut found = List::new(alloc);
    while tokens.sees(test) {
        found.push(part.read(tokens)?)?;
    }
    Ok(found)
}

/// The part as often as the next token passes the test, so many times at most.
pub fn read_upto<T, P: Test<T>, R: Part<T>>(
    alloc: Global,
    tokens: &mut Cursor<'_, T>,
    most: usize,
    test: &P,
    part: &R,
) -> Result<List<R::Value>, ParseStop>
where
    R::Value: Drop,
    requires { R.ready part.now }
    ensures { Reads (reading.upto_of most (P.holds test.now) (R.reader part.now) tokens.old) result tokens.new }
{
    let mut found = List::new(alloc);
    while found.len() < most && tokens.sees(test) {
        found.push(part.read(tokens)?)?;
    }
    Ok(found)
}

/// The first items, a separator and an item (`part`) as often as a token of an item (`starts`) stands behind a separator,
/// and perhaps a separator behind the last.
pub fn read_others<T, P: Test<T>, S: Test<T>, R: Part<T>>(
    tokens: &mut Cursor<'_, T>,
    first: List<R::Value>,
    separator: &P,
    starts: &S,
    part: &R,
) -> Result<List<R::Value>, ParseStop>
where
    R::Value: Drop,
    requires ready { R.ready part.now }
    requires shortens { Shortens (R.reader part.now) }
    ensures { Reads (reading.others_behind (P.holds separator.now) (S.holds starts.now) (R.reader part.now) first tokens.old) result tokens.new }
{
    let mut found = first;
    while tokens.sees_two(separator, starts) {
        found.push(part.read(tokens)?)?;
    }
    if !tokens.sees(separator) {
        return Ok(found);
    }
    tokens.advance();
    Ok(found)
}
