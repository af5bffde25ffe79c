ghost use Rattle.std.specs.Prelude.{◌≡◌, ◌+◌, ◌-◌, ◌^◌, ◌<◌, min, length, None, IfOk, IsOk};
ghost use Rattle.std.specs.Io.{WritesAtMost};
ghost use Rattle.std.specs.Io.KnownBytes.{WriteAppends};
ghost use Rattle.cx_source.specs.Causes.{HasCause, next_count};

use crate::{Failed, Sink};
use std::marker::Model;

/// A sink that takes every byte, keeps only their number, and tells no content. No call fails.
#[derive(Drop)]
pub struct NullSink {
    bytes: u64,
    calls: u64,
}

impl Model for NullSink {
    ghost use Rattle.cx_source.specs.InMemory.{Taken};

    ghost Value = { Taken };

    ghost view = { λ s. record { bytes = s.bytes; calls = s.calls } };
}

impl NullSink {
    /// Nothing was written yet.
    pub fn new() -> NullSink
        ensures { result ≡ record { bytes = 0; calls = 0 } }
    {
        NullSink { bytes: 0, calls: 0 }
    }

    /// How many bytes were written, up to the count's last value.
    pub fn count(&self) -> u64
        ensures { result ≡ self.now.bytes }
    {
        self.bytes
    }
}

impl Sink for NullSink {
    ghost written = { λ _. None };

    ghost faults = { λ _. 0 };

    ghost writes = { λ s. s.calls };

    fn write(&mut self, piece: &[u8]) -> Result<usize, Failed>
        ensures bound { WritesAtMost result piece.now }
        ensures bytes { WriteAppends None None result piece.now }
        ensures takes { IfOk result (λ n. 0 < length piece.now → 0 < n) }
        ensures cause { HasCause 0 0 result }
        ensures one { self.new.calls ≡ next_count self.old.calls }

        ensures whole { result ≡ Ok (length piece.now) }
        ensures counted { self.new.bytes ≡ min (self.old.bytes + length piece.now) (2 ^ 64 - 1) }
    {
        self.calls = self.calls.saturating_add(1);
        self.bytes = self.bytes.saturating_add(piece.len() as u64);
        Ok(piece.len())
    }
}
