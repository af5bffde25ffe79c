ghost use Rattle.std.specs.Prelude.{◌≡◌, ℕ, ◌<◌, List, Option, length, IfOk, OnOk};
ghost use Rattle.std.specs.Io.{ReadsAtMost, WritesAtMost};
ghost use Rattle.std.specs.Io.KnownBytes.{ReadConsumes, WriteAppends};
ghost use Rattle.cx_source.specs.Causes.{HasCause, GivesCount, next_count};

/// A read or a write failed.
#[derive(Clone, Copy, Debug, PartialEq, Eq)]
pub struct Failed;

/// Where bytes come from. `Ok(0)` into a buffer that isn't empty is the end.
pub trait Source {
    /// The bytes that are left, where it tells them.
    ghost left: { Self → Option (List ℕ) };

    /// How often it has failed.
    ghost faults: { Self → ℕ };

    /// How many bytes it has given.
    ghost given: { Self → ℕ };

    /// How many reads were made, up to the count's last value.
    ghost reads: { Self → ℕ };

    /// Fills the front of the buffer and says how much of it. It fails only where the count of faults rose or
    /// stands at its last value; the bytes that are left then stand as before. Where it doesn't fail, the faults
    /// stand as before.
    fn read(&mut self, buf: &mut [u8]) -> Result<usize, Failed>
        ensures bound { ReadsAtMost result buf.new }
        ensures bytes { ReadConsumes (left self.old) (left self.new) result buf.new }
        ensures cause { HasCause (faults self.old) (faults self.new) result }
        ensures no_fault { OnOk result (faults self.new ≡ faults self.old) }
        ensures count { GivesCount (given self.old) (given self.new) result }
        ensures one { reads self.new ≡ next_count (reads self.old) };
}

/// Where bytes go.
pub trait Sink {
    /// The bytes that were written, where it tells them.
    ghost written: { Self → Option (List ℕ) };

    /// How often it has failed.
    ghost faults: { Self → ℕ };

    /// How many writes were made, up to the count's last value.
    ghost writes: { Self → ℕ };

    /// Takes a front of the piece and says how long it is, at least one byte of a piece that isn't empty. It fails
    /// only where the count of faults rose or stands at its last value; what was written then stands as before.
    /// Where it doesn't fail, the faults stand as before.
    fn write(&mut self, piece: &[u8]) -> Result<usize, Failed>
        ensures bound { WritesAtMost result piece.now }
        ensures bytes { WriteAppends (written self.old) (written self.new) result piece.now }
        ensures takes { IfOk result (λ n. 0 < length piece.now → 0 < n) }
        ensures cause { HasCause (faults self.old) (faults self.new) result }
        ensures no_fault { OnOk result (faults self.new ≡ faults self.old) }
        ensures one { writes self.new ≡ next_count (writes self.old) };
}
