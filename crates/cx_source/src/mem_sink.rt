ghost use Rattle.std.specs.Prelude.{◌≡◌, ◌⊎◌, ◌+◌, ◌-◌, ◌≤◌, ◌<◌, ◌↔◌, [], length, min, Some, IfOk, IsErr, OnOk, Contains};
ghost use Rattle.std.specs.Io.{WritesAtMost};
ghost use Rattle.std.specs.Io.KnownBytes.{WriteAppends};
ghost use Rattle.cx_source.specs.Causes.{HasCause, next_count};
ghost use Rattle.cx_source.specs.InMemory.{at_least_one};

use crate::{Failed, Sink};
use cx_base::Memory;
use std::alloc::Global;
use std::marker::Model;

/// A sink in memory with so much room. Chosen calls fail, and so does each without room.
#[derive(Drop)]
pub struct MemSink {
    bytes: Vec<u8>,
    room: usize,
    piece: usize,
    failing: Vec<usize>,
    calls: usize,
    faults: u64,
}

impl Model for MemSink {
    ghost use Rattle.std.specs.Prelude.{◌≤◌, length, vec_capacity};
    ghost use Rattle.cx_source.specs.InMemory.{Room};

    ghost Value = { Room };

    ghost view = { λ s. record { written = s.bytes.items; room = s.room; piece = s.piece; failing = s.failing.items; calls = s.calls; faults = s.faults } };

    ghost invariant = { λ s. (length s.bytes.items ≤ s.room) × (s.room ≤ vec_capacity s.bytes) };
}

impl MemSink {
    /// It reserves its room at once. A write takes at most `piece` bytes, where 0 counts as 1, and the room
    /// that is left. A call whose number stands in `failing` fails.
    pub fn with_room(
        alloc: Global,
        room: usize,
        piece: usize,
        failing: Vec<usize>,
    ) -> Result<MemSink, Memory>
        ensures { IfOk result (λ s. s ≡ record { written = []; room = room; piece = piece; failing = failing.items; calls = 0; faults = 0 }) }
    {
        match Vec::with_capacity(alloc, room) {
            Ok(bytes) => Ok(MemSink {
                bytes,
                room,
                piece,
                failing,
                calls: 0,
                faults: 0,
            }),
            Err(_) => Err(Memory),
        }
    }

    /// What was written.
    pub fn bytes(&self) -> &[u8]
        ensures { result.now ≡ self.now.written }
    {
        &self.bytes
    }
}

impl Sink for MemSink {
    ghost written = { λ s. Some s.written };

    ghost faults = { λ s. s.faults };

    ghost writes = { λ s. s.calls };

    fn write(&mut self, piece: &[u8]) -> Result<usize, Failed>
        ensures bound { WritesAtMost result piece.now }
        ensures bytes { WriteAppends (Some self.old.written) (Some self.new.written) result piece.now }
        ensures takes { IfOk result (λ n. 0 < length piece.now → 0 < n) }
        ensures cause { HasCause self.old.faults self.new.faults result }
        ensures no_fault { OnOk result (self.new.faults ≡ self.old.faults) }
        ensures one { self.new.calls ≡ next_count self.old.calls }

        ensures fails { IsErr result ↔ ((self.old.room ≡ length self.old.written) ⊎ Contains self.old.failing (next_count self.old.calls)) }
        ensures exact { IfOk result (λ n. n ≡ min (min (at_least_one self.old.piece) (self.old.room - length self.old.written)) (length piece.now)) }
        ensures kept { (self.new.room ≡ self.old.room) × (self.new.piece ≡ self.old.piece) × (self.new.failing ≡ self.old.failing) }
    {
        self.calls = self.calls.saturating_add(1);
        let left = self.room - self.bytes.len();
        if left == 0 || self.failing.contains(&self.calls) {
            self.faults = self.faults.saturating_add(1);
            return Err(Failed);
        }
        let count = self.piece.max(1).min(left).min(piece.len());
        self.bytes.extend_from_slice(&piece[..count]).unwrap();
        Ok(count)
    }
}
