ghost use Rattle.std.specs.Prelude.{◌≡◌, ◌⊎◌, map, string_bytes, IsSome, None};
ghost use Rattle.cx_words.specs.Asked.{asked};
ghost use Rattle.cx_cli.specs.Answers.{HasReport};

use cx_cli::{Status, cx_main};
use cx_source::{NullSink, PlainSource};
use std::alloc::Global;

/// The top call over a source and a sink over which no count ever rises: it answers by the words alone, unless memory
/// runs out.
pub fn answered(
    alloc: Global,
    words: &[String],
    source: &mut PlainSource,
    sink: &mut NullSink,
) -> Status
    ensures job { IsSome (asked (map string_bytes words.now)) → HasReport result ⊎ (result ≡ Status.Memory) }
    ensures refused { asked (map string_bytes words.now) ≡ None → (result ≡ Status.Usage) ⊎ (result ≡ Status.Memory) }
{
    cx_main(alloc, words, source, sink)
}
