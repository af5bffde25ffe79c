//! From words to a job.
ghost use Rattle.std.specs.Prelude.{◌≡◌, ◌≤◌, map, string_bytes, true, IfOk};
ghost use Rattle.cx_base.specs.Limits.{limits_allowed};
ghost use Rattle.cx_words.specs.Asked.{Answers, asked};

use crate::command::command;
use crate::matched::job_in;
use crate::{Job, WordsAnswer};
use clap::error::ErrorKind;
use std::alloc::Global;

/// The job that the words ask for. The first word is the program's name, and an empty list counts as the name alone.
/// Words that the command doesn't take are refused, help among them.
pub fn words(alloc: Global, words: &[String]) -> Result<Job, WordsAnswer>
    ensures answer { Answers result (asked (map string_bytes words.now)) }
    ensures allowed { IfOk result (λ job. limits_allowed job.limits ≡ true) }
    ensures count { IfOk result (λ job. job.count ≤ 10_000) }
{
    let Ok(command) = command(alloc) else {
        return Err(WordsAnswer::Memory);
    };
    match command.try_get_matches_from(words) {
        Ok(matches) => match job_in(&matches) {
            Some(job) => Ok(job),
            None => Err(WordsAnswer::Refused),
        },
        Err(error) => match error.kind() {
            ErrorKind::OutOfMemory => Err(WordsAnswer::Memory),
            _ => Err(WordsAnswer::Refused),
        },
    }
}
