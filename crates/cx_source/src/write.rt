ghost use Rattle.std.specs.Prelude.{◌≡◌, ◌+◌, ◌<◌, ◌≤◌, length, take, IfErr, OnOk};
ghost use Rattle.std.specs.Io.KnownBytes.{Appends};
ghost use Rattle.cx_source.specs.Causes.{HasCause};

use crate::{Failed, Sink};

/// So many bytes were written, and then a write failed.
#[derive(Clone, Copy, Debug, PartialEq, Eq)]
pub struct WriteFault {
    /// How many bytes went out.
    pub written: u64,
}

/// Writes all the bytes, or says how many went out before a write failed. Each write takes a byte at least or is
/// the last.
pub fn write_all<K: Sink>(sink: &mut K, bytes: &[u8]) -> Result<(), WriteFault>
    ensures ok { OnOk result (Appends (K.written sink.old) (K.written sink.new) bytes.now) }
    ensures prefix { IfErr result (λ e. Appends (K.written sink.old) (K.written sink.new) (take e.written bytes.now)) }
    ensures short { IfErr result (λ e. e.written < length bytes.now) }
    ensures cause { HasCause (K.faults sink.old) (K.faults sink.new) result }
    ensures no_fault { OnOk result (K.faults sink.new ≡ K.faults sink.old) }
    ensures writes { K.writes sink.new ≤ K.writes sink.old + length bytes.now }
{
    let mut at = 0usize;
    'pieces: while at < bytes.len() {
        match sink.write(&bytes[at..]) {
            Ok(count) => at += count,
            Err(Failed) => return Err(WriteFault { written: at as u64 }),
        }
    }
    Ok(())
}
