ghost use Rattle.std.specs.Prelude.{◌≡◌};

use crate::{Failed, Source};
use std::io::Read;

/// A reader of std as a source. It passes on what the reader tells, and counts.
#[derive(Drop)]
pub struct StdSource<R: Read + Drop> {
    reader: R,
    faults: u64,
    given: u64,
    reads: u64,
}

impl<R: Read + Drop> StdSource<R> {
    /// The reader as a source that hasn't failed.
    pub fn new(reader: R) -> StdSource<R>
        ensures left { ⟦<StdSource<R> as Source>⟧.left result ≡ R.remaining reader }
        ensures faults { ⟦<StdSource<R> as Source>⟧.faults result ≡ 0 }
        ensures given { ⟦<StdSource<R> as Source>⟧.given result ≡ 0 }
        ensures reads { ⟦<StdSource<R> as Source>⟧.reads result ≡ 0 }
    {
        StdSource {
            reader,
            faults: 0,
            given: 0,
            reads: 0,
        }
    }
}

impl<R: Read + Drop> Source for StdSource<R> {
    ghost left = { λ s. R.remaining s.reader };

    ghost faults = { λ s. s.faults };

    ghost given = { λ s. s.given };

    ghost reads = { λ s. s.reads };

    fn read(&mut self, buf: &mut [u8]) -> Result<usize, Failed> {
        self.reads = self.reads.saturating_add(1);
        match self.reader.read(buf) {
            Ok(count) => {
                self.given = self.given.saturating_add(count as u64);
                Ok(count)
            }
            Err(_) => {
                self.faults = self.faults.saturating_add(1);
                Err(Failed)
            }
        }
    }
}
