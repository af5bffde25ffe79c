ghost use Rattle.std.specs.Prelude.{◌≡◌, ◌⊎◌, ◌+◌, ◌≤◌, map, string_bytes, true, false, length, None, IfOk, IfSome, IsSome, IsSomeAnd};
ghost use Rattle.std.specs.Io.KnownBytes.{Consumes};
ghost use Rattle.cx_source.specs.Causes.{Rose};
ghost use Rattle.cx_source.specs.Contents.{read_of};
ghost use Rattle.cx_words.specs.Asked.{asked};
ghost use Rattle.cx_cli.specs.Answers.{HasReport, IsWriteFault, Reports, TellsReadFaults, TellsWriteFaults, Writes, given, makes, text_of};

use crate::judging::{Finding, NoVerdict, judged};
use crate::{JobMode, Status, WordsAnswer};
use cx_base::Memory;
use cx_source::{Sink, Source, write_all};
use cx_unit::{Mode, Verdict, report, summary};
use std::alloc::Global;

// The report of a verdict in a job's mode.
fn text_of(alloc: Global, mode: JobMode, bytes: u64, verdict: &Verdict) -> Result<Vec<u8>, Memory>
    ensures { IfOk result (λ text. text.items ≡ text_of mode bytes verdict.now) }
{
    match mode {
        JobMode::Print => report(alloc, verdict, Mode::Print),
        JobMode::Check => report(alloc, verdict, Mode::Check),
        JobMode::Notes => report(alloc, verdict, Mode::Notes),
        JobMode::Make => summary(alloc, bytes, verdict),
    }
}

// Writes the report of a verdict.
fn reported<K: Sink>(alloc: Global, mode: JobMode, judged: &Finding, sink: &mut K) -> Status
    ensures writes { (result ≡ Status.Memory) ⊎ Writes result judged.now.verdict (text_of mode judged.now.bytes judged.now.verdict)
        (K.written sink.old) (K.written sink.new) }
    ensures faults { TellsWriteFaults (K.faults sink.old) (K.faults sink.new) result }
    ensures memory { result ≡ Status.Memory → sink.new ≡ sink.old }
    ensures only { (result ≡ Status.Memory) ⊎ (HasReport result ⊎ IsWriteFault result) }
{
    let Ok(text) = text_of(alloc, mode, judged.bytes, &judged.verdict) else {
        return Status::Memory;
    };
    if let Err(fault) = write_all(sink, &text) {
        return Status::WriteFault {
            written: fault.written,
        };
    }
    match &judged.verdict {
        Verdict::Accepted(_) => Status::Accepted,
        Verdict::Refused(_) => Status::Refused,
    }
}

/// All that the program does. The words begin with the program's name, and an empty list counts as the name alone.
/// The source is read to its end, or until it is too long, or a unit is made; the verdict on it is told by the answer,
/// and its report is written to the sink.
pub fn cx_main<S: Source, K: Sink>(
    alloc: Global,
    words: &[String],
    source: &mut S,
    sink: &mut K,
) -> Status
    // The report of the one verdict on what was read or made, under the job's limits and in its mode, is written, whole and
    // alone, and the answer tells which verdict it is.
    ensures report { HasReport result → IsSomeAnd (asked (map string_bytes words.now)) (λ job.
        Reports job (given job (S.left source.old)) result (K.written sink.old) (K.written sink.new)) }
    ensures taken { HasReport result → IfSome (asked (map string_bytes words.now)) (λ job. makes job.mode ≡ false →
        IfSome (S.left source.old) (λ left. Consumes (S.left source.old) (S.left source.new) (read_of left))) }

    // Where a unit is made, nothing is read.
    ensures unread { IfSome (asked (map string_bytes words.now)) (λ job. makes job.mode ≡ true →
        (source.new ≡ source.old) × (result ≡ Status.ReadFault → ⊥)) }

    // Refused words are those that ask for no job. Then nothing is read or written.
    ensures usage { result ≡ Status.Usage → asked (map string_bytes words.now) ≡ None }
    ensures refused { asked (map string_bytes words.now) ≡ None → (result ≡ Status.Usage) ⊎ (result ≡ Status.Memory) }
    ensures untouched { asked (map string_bytes words.now) ≡ None → (source.new ≡ source.old) × (sink.new ≡ sink.old) }

    // A fault of reading is one of the source's in this call, and no other answer has one. Nothing is written then.
    ensures read_faults { TellsReadFaults (S.faults source.old) (S.faults source.new) result }
    ensures read_fault { result ≡ Status.ReadFault → sink.new ≡ sink.old }

    // A fault of writing is one of the sink's in this call, and no other answer has one. So much of the report was written.
    ensures write_faults { TellsWriteFaults (K.faults sink.old) (K.faults sink.new) result }
    ensures prefix { IsWriteFault result → IsSomeAnd (asked (map string_bytes words.now)) (λ job.
        Reports job (given job (S.left source.old)) result (K.written sink.old) (K.written sink.new)) }

    // Memory runs out before anything is written.
    ensures memory { result ≡ Status.Memory → sink.new ≡ sink.old }

    // Where the words ask for a job and neither count rose, there is a report, unless memory ran out.
    ensures complete { IsSome (asked (map string_bytes words.now)) → (Rose (S.faults source.old) (S.faults source.new) → ⊥)
        → (Rose (K.faults sink.old) (K.faults sink.new) → ⊥) → HasReport result ⊎ (result ≡ Status.Memory) }

    ensures reads { S.reads source.new ≤ S.reads source.old + 4_194_305 }
{
    let job = match cx_words::words(alloc, words) {
        Ok(job) => job,
        Err(WordsAnswer::Refused) => return Status::Usage,
        Err(WordsAnswer::Memory) => return Status::Memory,
    };
    match judged(alloc, source, &job) {
        Ok(judged) => reported(alloc, job.mode, &judged, sink),
        Err(NoVerdict::ReadFault) => Status::ReadFault,
        Err(NoVerdict::Memory) => Status::Memory,
    }
}
