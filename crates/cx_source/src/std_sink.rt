ghost use Rattle.std.specs.Prelude.{◌≡◌};

use crate::{Failed, Sink};
use std::io::Write;

/// A writer of std as a sink. It passes on what the writer tells, and counts. A write that takes nothing of a
/// piece that isn't empty fails.
#[derive(Drop)]
pub struct StdSink<W: Write + Drop> {
    writer: W,
    faults: u64,
    writes: u64,
}

impl<W: Write + Drop> StdSink<W> {
    /// The writer as a sink that hasn't failed.
    pub fn new(writer: W) -> StdSink<W>
        ensures written { ⟦<StdSink<W> as Sink>⟧.written result ≡ W.contents writer }
        ensures faults { ⟦<StdSink<W> as Sink>⟧.faults result ≡ 0 }
        ensures writes { ⟦<StdSink<W> as Sink>⟧.writes result ≡ 0 }
    {
        StdSink {
            writer,
            faults: 0,
            writes: 0,
        }
    }
}

impl<W: Write + Drop> Sink for StdSink<W> {
    ghost written = { λ s. W.contents s.writer };

    ghost faults = { λ s. s.faults };

    ghost writes = { λ s. s.writes };

    fn write(&mut self, piece: &[u8]) -> Result<usize, Failed> {
        self.writes = self.writes.saturating_add(1);
        match self.writer.write(piece) {
            Ok(count) if count > 0 || piece.is_empty() => Ok(count),
            _ => {
                self.faults = self.faults.saturating_add(1);
                Err(Failed)
            }
        }
    }
}
