//! The closing brackets that the brackets before a place may have.
ghost use Rattle.std.specs.Prelude.{◌≡◌, [], ◌∷◌, OnOk, OnErr};
ghost use Rattle.cx_type_names.specs.Walk.{matched, unmatched};

use crate::role::{Bracket, same};
use cx_base::Memory;
use cx_token_defs::Token;
use std::alloc::Global;
use std::marker::Model;

/// A closing bracket.
#[derive(Drop)]
pub struct Closer<'a> {
    bracket: Bracket,
    rest: &'a [Token],
    past: &'a [Token],
}

impl<'a> Model for Closer<'a> {
    ghost use Rattle.cx_type_names.specs.Walk.{Closing};

    ghost Value = { Closing };

    ghost view = { λ c. record { bracket = c.bracket; rest = c.rest.now; past = c.past.now } };
}

impl<'a> Closer<'a> {
    /// What stands behind it.
    pub fn rest(&self) -> &'a [Token]
        ensures { result.now ≡ self.now.rest }
    {
        self.rest
    }

    /// What stands behind it, attribute groups passed over.
    pub fn past(&self) -> &'a [Token]
        ensures { result.now ≡ self.now.past }
    {
        self.past
    }
}

/// Closing brackets, that contracts see as a list, the first one first.
#[derive(Drop)]
pub struct Closers<'a> {
    closers: Vec<Closer<'a>>,
}

impl<'a> Model for Closers<'a> {
    ghost use Rattle.std.specs.Prelude.{List, reverse};
    ghost use Rattle.cx_type_names.specs.Walk.{Closing};

    ghost Value = { List Closing };

    ghost view = { λ c. reverse c.closers.items };
}

impl<'a> Closers<'a> {
    pub fn new(alloc: Global) -> Closers<'a>
        ensures { result ≡ [] }
    {
        Closers {
            closers: Vec::new(alloc),
        }
    }

    /// Puts a closing bracket before the others.
    pub fn close(
        &mut self,
        bracket: Bracket,
        rest: &'a [Token],
        past: &'a [Token],
    ) -> Result<(), Memory>
        ensures ok { OnOk result (self.new ≡ record { bracket = bracket; rest = rest.now; past = past.now } ∷ self.old) }
    {
        match self.closers.push(Closer {
            bracket,
            rest,
            past,
        }) {
            Ok(()) => Ok(()),
            Err(_) => Err(Memory),
        }
    }

    /// Takes the closing bracket of an opening one, which is the first one. Where that is of another kind, none is left.
    pub fn open(&mut self, bracket: Bracket) -> Option<Closer<'a>>
        ensures value { result ≡ matched bracket self.old }
        ensures rest { self.new ≡ unmatched bracket self.old }
    {
        match self.closers.pop() {
            Some(closer) if same(bracket, closer.bracket) => Some(closer),
            _ => {
                self.closers.clear();
                None
            }
        }
    }

    /// Takes all away.
    pub fn clear(&mut self)
        ensures { self.new ≡ [] }
    {
        self.closers.clear();
    }
}
