ghost use Rattle.std.specs.Prelude.{◌≡◌, ◌↔◌, ℕ, ◌+◌, ◌-◌, ◌^◌, ◌<◌, ◌≤◌, [], length, min, take, true, false, IfOk, IfSome, OnOk, IsErrOf};
ghost use Rattle.std.specs.Io.KnownBytes.{Consumes, IsAtEnd};
ghost use Rattle.cx_source.specs.Causes.{Rose};
ghost use Rattle.cx_source.specs.Whole.{HoldsRead, TellsFaults};

use crate::{Failed, Feed, Source};
use cx_base::Memory;
use std::alloc::Global;
use thiserror::Error;

/// Why not all bytes were read.
#[derive(Clone, Copy, Debug, PartialEq, Eq, Error)]
pub enum ReadAnswer {
    /// A read failed.
    #[error("a read failed")]
    ReadFault,
    /// There is one byte more than the limit, at least.
    #[error("too many bytes")]
    TooLong,
    /// Memory ran out.
    #[error("out of memory")]
    Memory,
}

const PIECE: usize = 4096;

/// Feeds all the bytes that the source has left, which are at most `limit`, and says how many. Each read takes a byte
/// at least or is the last.
pub fn feed_all<S: Source, F: Feed>(
    source: &mut S,
    feed: &mut F,
    limit: u32,
) -> Result<u32, ReadAnswer>
    requires limit { limit ≤ 4_194_304 }
    requires empty { F.holds feed.old [] }
    requires none { F.count feed.old ≡ 0 }
    requires fresh { F.failed feed.old ≡ false }

    ensures bytes { IfOk result (λ n. HoldsRead (F.holds feed.new) (S.left source.old) (S.left source.new) n) }
    ensures counted { IfOk result (λ n. F.count feed.new ≡ n) }
    ensures end { OnOk result (IsAtEnd (S.left source.new)) }
    ensures within { IfOk result (λ n. n ≤ limit) }

    // It ends where one byte more than the limit has come.
    ensures too_long { IsErrOf result ReadAnswer.TooLong → IfSome (S.left source.old) (λ left. limit < length left) }
    ensures taken { IsErrOf result ReadAnswer.TooLong → IfSome (S.left source.old) (λ left.
        Consumes (S.left source.old) (S.left source.new) (take (limit + 1) left)) }
    ensures too_many { IsErrOf result ReadAnswer.TooLong → min (S.given source.old + (limit + 1)) (2 ^ 64 - 1) ≤ S.given source.new }
    ensures few { OnOk result (S.given source.new ≤ S.given source.old + limit) }

    ensures memory { IsErrOf result ReadAnswer.Memory ↔ (F.failed feed.new ≡ true) }
    ensures fault { IsErrOf result ReadAnswer.ReadFault → Rose (S.faults source.old) (S.faults source.new) }
    ensures no_fault { TellsFaults (S.faults source.old) (S.faults source.new) result }
    ensures later { S.faults source.old ≤ S.faults source.new }
    ensures reads { S.reads source.new ≤ S.reads source.old + (limit + 1) }
{
    let mut buffer = [0u8; PIECE];
    let room = limit as usize + 1;
    let mut fed = 0usize;
    'pieces: while fed < room {
        let want = PIECE.min(room - fed);
        let count = match source.read(&mut buffer[..want]) {
            Ok(count) => count,
            Err(Failed) => return Err(ReadAnswer::ReadFault),
        };
        if count == 0 {
            return Ok(fed as u32);
        }
        match feed.feed(&buffer[..count]) {
            Ok(()) => fed += count,
            Err(Memory) => return Err(ReadAnswer::Memory),
        }
    }
    Err(ReadAnswer::TooLong)
}

// All the bytes that it was fed.
#[derive(Drop)]
struct Gathered {
    bytes: Vec<u8>,
    failed: bool,
}

impl Feed for Gathered {
    ghost holds = { λ s bytes. s.bytes.items ≡ bytes };

    ghost count = { λ s. length s.bytes.items };

    ghost failed = { λ s. s.failed };

    fn feed(&mut self, piece: &[u8]) -> Result<(), Memory> {
        match self.bytes.extend_from_slice(piece) {
            Ok(()) => Ok(()),
            Err(_) => {
                self.failed = true;
                Err(Memory)
            }
        }
    }
}

/// All the bytes that the source has left, which are at most `limit`. Each read takes a byte at least or is the last.
pub fn read_all<S: Source>(alloc: Global, source: &mut S, limit: u32) -> Result<Vec<u8>, ReadAnswer>
    requires { limit ≤ 4_194_304 }

    ensures bytes { IfOk result (λ bytes. IfSome (S.left source.old) (λ left. bytes.items ≡ left)) }
    ensures consumed { IfOk result (λ bytes. Consumes (S.left source.old) (S.left source.new) bytes.items) }
    ensures end { OnOk result (IsAtEnd (S.left source.new)) }
    ensures within { IfOk result (λ bytes. length bytes.items ≤ limit) }

    // It ends where one byte more than the limit has come.
    ensures too_long { IsErrOf result ReadAnswer.TooLong → IfSome (S.left source.old) (λ left. limit < length left) }
    ensures taken { IsErrOf result ReadAnswer.TooLong → IfSome (S.left source.old) (λ left.
        Consumes (S.left source.old) (S.left source.new) (take (limit + 1) left)) }
    ensures too_many { IsErrOf result ReadAnswer.TooLong → min (S.given source.old + (limit + 1)) (2 ^ 64 - 1) ≤ S.given source.new }
    ensures few { OnOk result (S.given source.new ≤ S.given source.old + limit) }

    ensures fault { IsErrOf result ReadAnswer.ReadFault → Rose (S.faults source.old) (S.faults source.new) }
    ensures no_fault { TellsFaults (S.faults source.old) (S.faults source.new) result }
    ensures later { S.faults source.old ≤ S.faults source.new }
    ensures reads { S.reads source.new ≤ S.reads source.old + (limit + 1) }
{
    let mut gathered = Gathered {
        bytes: Vec::new(alloc),
        failed: false,
    };
    match feed_all(source, &mut gathered, limit) {
        Ok(_) => Ok(gathered.bytes),
        Err(answer) => Err(answer),
    }
}
