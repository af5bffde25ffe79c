ghost use Rattle.std.specs.Prelude.{◌≡◌, ℕ, ◌+◌, ◌++◌, ◌≤◌, Bool, true, List, length, OnOk, OnErr};

use cx_base::Memory;

/// What takes bytes by pieces.
pub trait Feed {
    /// It was fed exactly these bytes.
    ghost holds: { Self → List ℕ → Type 0 };

    /// How many bytes it was fed.
    ghost count: { Self → ℕ };

    /// A feed on it has answered `Memory`.
    ghost failed: { Self → Bool };

    /// Takes the piece behind what it was fed before, or answers that memory ran out.
    fn feed(&mut self, piece: &[u8]) -> Result<(), Memory>
        requires room { count self.old + length piece.now ≤ 4_194_305 }
        ensures ok { OnOk result (failed self.new ≡ failed self.old) }
        ensures bytes { OnOk result ((bytes : List ℕ) → holds self.old bytes → holds self.new (bytes ++ piece.now)) }
        ensures counted { OnOk result (count self.new ≡ count self.old + length piece.now) }
        ensures err { OnErr result (failed self.new ≡ true) };
}
