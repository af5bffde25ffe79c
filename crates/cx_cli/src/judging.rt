//! The verdict on what a job is given.
ghost use Rattle.std.specs.Prelude.{◌≡◌, ◌+◌, ◌≤◌, true, false, length, IfOk, IfSome, OnOk};
ghost use Rattle.std.specs.Io.KnownBytes.{Consumes};
ghost use Rattle.cx_base.specs.Limits.{limits_allowed};
ghost use Rattle.cx_base.specs.Only.{IsOnly};
ghost use Rattle.cx_made.specs.Unit.{unit};
ghost use Rattle.cx_source.specs.Contents.{read_of};
ghost use Rattle.cx_unit.specs.Verdict.{IsVerdict};
ghost use Rattle.cx_cli.specs.Answers.{IsVerdictOn, given, makes};
ghost use Rattle.cx_cli.specs.Judging.{MadeOf, TellsFaults};

use crate::{Job, JobMode};
use cx_base::{Limits, Memory};
use cx_lexer::Lexer;
use cx_made::made_unit;
use cx_source::{ReadAnswer, Source, feed_all};
use cx_unit::{Verdict, too_long, verdict_of_lexed, verdict_on};
use std::alloc::Global;

// The longest source, in bytes.
const LONGEST_SOURCE: u32 = 4_194_304;

/// Why there is no verdict.
#[derive(Clone, Copy)]
pub(crate) enum NoVerdict {
    ReadFault,
    Memory,
}

/// A verdict, and how many bytes a made unit has.
#[derive(Drop)]
pub(crate) struct Finding {
    pub(crate) verdict: Verdict,
    pub(crate) bytes: u64,
}

/// Whether a unit is made, and nothing is read.
pub(crate) fn makes(mode: JobMode) -> bool
    ensures { result ≡ makes mode }
{
    matches!(mode, JobMode::Make)
}

// Reads the source, and gives the verdict on it.
fn judged_source<S: Source>(
    alloc: Global,
    source: &mut S,
    limits: Limits,
) -> Result<Verdict, NoVerdict>
    requires { limits_allowed limits ≡ true }
    ensures verdict { IfOk result (λ v. IfSome (S.left source.old) (λ left. IsOnly (IsVerdict limits (read_of left)) v)) }
    ensures taken { OnOk result (IfSome (S.left source.old) (λ left. Consumes (S.left source.old) (S.left source.new) (read_of left))) }
    ensures faults { TellsFaults (S.faults source.old) (S.faults source.new) result }
    ensures reads { S.reads source.new ≤ S.reads source.old + 4_194_305 }
{
    let mut lexer = match Lexer::new(alloc) {
        Ok(lexer) => lexer,
        Err(Memory) => return Err(NoVerdict::Memory),
    };
    match feed_all(source, &mut lexer, LONGEST_SOURCE) {
        Ok(_) => {}
        Err(ReadAnswer::TooLong) => return Ok(too_long(alloc)),
        Err(ReadAnswer::ReadFault) => return Err(NoVerdict::ReadFault),
        Err(ReadAnswer::Memory) => return Err(NoVerdict::Memory),
    }
    match verdict_of_lexed(alloc, lexer.end(), limits) {
        Ok(verdict) => Ok(verdict),
        Err(Memory) => Err(NoVerdict::Memory),
    }
}

// Makes the unit of the job, and gives the verdict on it.
fn judged_unit(alloc: Global, job: &Job) -> Result<Finding, Memory>
    requires allowed { limits_allowed job.now.limits ≡ true }
    requires count { job.now.count ≤ 10_000 }
    ensures verdict { IfOk result (λ j. IsOnly (IsVerdict job.now.limits (unit job.now.seed job.now.count)) j.verdict) }
    ensures bytes { IfOk result (λ j. j.bytes ≡ length (unit job.now.seed job.now.count)) }
{
    let unit = made_unit(alloc, job.seed, job.count)?;
    let verdict = verdict_on(alloc, &unit, job.limits)?;
    Ok(Finding {
        verdict,
        bytes: unit.len() as u64,
    })
}

/// The verdict on what the job is given: a unit that is made, or the source.
pub(crate) fn judged<S: Source>(
    alloc: Global,
    source: &mut S,
    job: &Job,
) -> Result<Finding, NoVerdict>
    requires allowed { limits_allowed job.now.limits ≡ true }
    requires count { job.now.count ≤ 10_000 }
    ensures verdict { IfOk result (λ j. IsVerdictOn job.now (given job.now (S.left source.old)) j.verdict) }
    ensures bytes { IfOk result (λ j. makes job.now.mode ≡ true → j.bytes ≡ length (unit job.now.seed job.now.count)) }
    ensures taken { makes job.now.mode ≡ false → OnOk result (IfSome (S.left source.old) (λ left.
        Consumes (S.left source.old) (S.left source.new) (read_of left))) }
    ensures unread { makes job.now.mode ≡ true → MadeOf source.old source.new result }
    ensures faults { TellsFaults (S.faults source.old) (S.faults source.new) result }
    ensures reads { S.reads source.new ≤ S.reads source.old + 4_194_305 }
{
    if makes(job.mode) {
        match judged_unit(alloc, job) {
            Ok(judged) => Ok(judged),
            Err(Memory) => Err(NoVerdict::Memory),
        }
    } else {
        match judged_source(alloc, source, job.limits) {
            Ok(verdict) => Ok(Finding { verdict, bytes: 0 }),
            Err(answer) => Err(answer),
        }
    }
}
