//! A cursor over tokens of any type. Contracts see it as the list of the tokens that are left.

ghost use Rattle.std.specs.Prelude.{◌≡◌, ℕ, length, Option, Some, None, option_map};
ghost use Rattle.cx_grammar.specs.Reading as reading;
ghost use Rattle.cx_grammar.specs.Reads.{Reads, head_of, tail_of};

use crate::stop::ParseStop;
use cx_base::Rule;
use std::marker::Model;

/// A test on tokens, as a kind of token or a set of kinds.
pub trait Test<T> {
    ghost use Rattle.std.specs.Prelude.{Bool};

    ghost holds: { Self → T → Bool };

    /// Whether the token passes.
    fn test(&self, token: &T) -> bool
        ensures { result ≡ holds self.now token.now };
}

/// What a token gives where it is one of some kind, as a number's value.
pub trait Pick<T> {
    type Value;

    ghost picks: { Self → T → Option Self.Value };

    /// The token's value, if it is of the kind.
    fn pick(&self, token: &T) -> Option<Self::Value>
        ensures { result ≡ picks self.now token.now };
}

/// The tokens that are left.
#[derive(Drop)]
pub struct Cursor<'a, T> {
    rest: &'a [T],
}

impl<'a, T> Model for Cursor<'a, T> {
    ghost use Rattle.std.specs.Prelude.{List as Seq};
    ghost use Rattle.std.specs.Coded.{coded_list};

    ghost Value = { Seq T };

    ghost coded = { coded_list T.code };

    ghost view = { λ it. it.rest.now };
}

impl<'a, T> Cursor<'a, T> {
    pub fn new(rest: &'a [T]) -> Cursor<'a, T>
        ensures { result ≡ rest.now }
    {
        Cursor { rest }
    }

    /// The tokens that are left.
    pub fn rest(&self) -> &'a [T]
        ensures { result.now ≡ self.now }
    {
        self.rest
    }

    /// How many tokens are left.
    pub fn left(&self) -> usize
        ensures { result ≡ length self.now }
    {
        self.rest.len()
    }

    /// The next token.
    pub fn peek(&self) -> Option<&'a T>
        ensures { option_map (λ t. t.now) result ≡ head_of self.now }
    {
        self.rest.first()
    }

    /// Whether the next token passes a test.
    pub fn sees<P: Test<T>>(&self, kind: &P) -> bool
        ensures { result ≡ reading.sees (P.holds kind.now) self.now }
    {
        match self.peek() {
            Some(token) => kind.test(token),
            None => false,
        }
    }

    /// Whether the next token passes one test and the token behind it another.
    pub fn sees_two<P: Test<T>, Q: Test<T>>(&self, first: &P, second: &Q) -> bool
        ensures { result ≡ reading.sees_two (P.holds first.now) (Q.holds second.now) self.now }
    {
        match self.rest {
            [one, two, ..] => first.test(one) && second.test(two),
            _ => false,
        }
    }

    /// The fault at the next token, which no spelling goes on with.
    pub fn refuse(&self) -> ParseStop
        ensures { result ≡ ParseStop.Fault Rule.Syntax (length self.now) }
    {
        ParseStop::Fault(Rule::Syntax, self.left())
    }

    /// The fault at the next token, which goes a level too deep.
    pub fn too_deep(&self) -> ParseStop
        ensures { result ≡ ParseStop.Fault Rule.Nesting (length self.now) }
    {
        ParseStop::Fault(Rule::Nesting, self.left())
    }

    /// Passes the next token, if there is one.
    pub fn advance(&mut self)
        ensures { self.new ≡ tail_of self.old }
    {
        if let [_, rest @ ..] = self.rest {
            self.rest = rest;
        }
    }

    /// Passes the next token, if it passes the test.
    pub fn expect<P: Test<T>>(&mut self, kind: &P) -> Result<(), ParseStop>
        ensures { Reads (reading.the (P.holds kind.now) self.old) result self.new }
    {
        if self.sees(kind) {
            self.advance();
            return Ok(());
        }
        Err(self.refuse())
    }

    /// Passes the next token and gives its value, if it is of the kind.
    pub fn take<P: Pick<T>>(&mut self, kind: &P) -> Result<P::Value, ParseStop>
        ensures { Reads (reading.token (P.picks kind.now) self.old) result self.new }
    {
        let Some(token) = self.peek() else {
            return Err(self.refuse());
        };
        let Some(value) = kind.pick(token) else {
            return Err(self.refuse());
        };
        self.advance();
        Ok(value)
    }

    /// The tokens that were passed since `from` was what was left.
    pub fn since(&self, from: &'a [T]) -> &'a [T]
        ensures { result.now ≡ reading.taken from.now self.now }
    {
        let passed = from.len().saturating_sub(self.rest.len());
        &from[..passed]
    }
}
