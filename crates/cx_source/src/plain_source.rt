ghost use Rattle.std.specs.Prelude.{◌≡◌, ◌+◌, ◌-◌, ◌++◌, ◌≤◌, ◌<◌, [], length, min, take, drop, Some, IfOk, IsOk};
ghost use Rattle.std.specs.Io.{ReadsAtMost};
ghost use Rattle.std.specs.Io.KnownBytes.{ReadConsumes};
ghost use Rattle.cx_source.specs.Causes.{HasCause, GivesCount, next_count};
ghost use Rattle.cx_source.specs.InMemory.{piece_of};

use crate::mem_source::{give, piece};
use crate::{Failed, Source};
use std::marker::Model;

/// Bytes in memory, given in pieces. No call fails.
#[derive(Drop)]
pub struct PlainSource {
    bytes: Vec<u8>,
    at: usize,
    pieces: Vec<usize>,
    calls: usize,
}

impl Model for PlainSource {
    ghost use Rattle.std.specs.Prelude.{◌≤◌, [], drop, length};
    ghost use Rattle.cx_source.specs.InMemory.{Supply};

    ghost Value = { Supply };

    ghost view = { λ s. record { left = drop s.at s.bytes.items; pieces = s.pieces.items; failing = []; calls = s.calls; given = s.at; faults = 0 } };

    ghost invariant = { λ s. s.at ≤ length s.bytes.items };
}

impl PlainSource {
    /// Call k, from 1, gives at most `pieces[(k - 1) % len]` bytes, where 0 counts as 1 and an empty list
    /// means no bound.
    pub fn new(bytes: Vec<u8>, pieces: Vec<usize>) -> PlainSource
        ensures { result ≡ record { left = bytes.items; pieces = pieces.items; failing = []; calls = 0; given = 0; faults = 0 } }
    {
        PlainSource {
            bytes,
            at: 0,
            pieces,
            calls: 0,
        }
    }
}

impl Source for PlainSource {
    ghost left = { λ s. Some s.left };

    ghost faults = { λ _. 0 };

    ghost given = { λ s. s.given };

    ghost reads = { λ s. s.calls };

    fn read(&mut self, buf: &mut [u8]) -> Result<usize, Failed>
        ensures bound { ReadsAtMost result buf.new }
        ensures bytes { ReadConsumes (Some self.old.left) (Some self.new.left) result buf.new }
        ensures cause { HasCause 0 0 result }
        ensures count { GivesCount self.old.given self.new.given result }
        ensures one { self.new.calls ≡ next_count self.old.calls }

        ensures never { IsOk result }
        ensures exact { IfOk result (λ n. n ≡ min (piece_of self.old.pieces self.old.calls (length buf.new)) (length self.old.left)) }
        ensures kept { self.new.pieces ≡ self.old.pieces }
    {
        let most = piece(&self.pieces, self.calls, buf.len());
        self.calls = self.calls.saturating_add(1);
        let count = give(&self.bytes, self.at, most, buf);
        self.at += count;
        Ok(count)
    }
}
