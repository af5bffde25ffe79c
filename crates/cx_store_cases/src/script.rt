//! Runs the cases of a script on a store.
ghost use Rattle.cx_store_cases.specs.Seats.{Stands};

use crate::ask::ask;
use crate::make::clear;
use crate::sample::Sample;
use crate::seat::{AMPLE, Desk};
use crate::stop::Stop;
use crate::tell::rule_word;
use cx_store::Store;
use cx_types::Types;
use std::alloc::Global;

/// What a script's calls answered, each in a line of its own behind the call, and how many calls there were.
#[derive(Drop)]
pub struct Tried {
    pub report: String,
    pub calls: u32,
}

impl Tried {
    fn line(&mut self, line: &str, answer: &str) -> Result<(), Stop> {
        self.report.push_str(line)?;
        self.report.push_str(answer)?;
        self.report.push_str("\n")?;
        Ok(())
    }

    fn answer(&mut self, line: &str, answer: Result<String, Stop>) -> Result<(), Stop> {
        self.calls = self.calls.saturating_add(1);
        self.report.push_str(line)?;
        self.line(
            " = ",
            match &answer {
                Ok(text) => text.as_str(),
                Err(Stop::Rule(rule)) => rule_word(*rule),
                Err(Stop::NotAsked) => "not asked",
                Err(Stop::Memory) => "out of memory",
            },
        )
    }
}

/// A new case: no objects, no places, ample limits.
fn begin_case<S: Store>(alloc: Global, store: &mut S, types: &Types) -> Desk<S::Place>
    requires { S.fits store.old types.now }
    ensures { Stands (S.fits store.new types.now) types.now (S.objects store.new) (S.path store.new) result }
{
    clear(store, types);
    Desk {
        seats: Vec::new(alloc),
        limits: AMPLE,
        safe: 0,
    }
}

/// A line of a script: a call, a remark, or the end of a case.
fn turn<S: Store>(
    alloc: Global,
    sample: &Sample,
    store: &mut S,
    desk: &mut Desk<S::Place>,
    tried: &mut Tried,
    line: &str,
) -> Result<(), Stop>
    requires { Stands (S.fits store.old sample.now.types) sample.now.types (S.objects store.old) (S.path store.old) desk.old }
    ensures { Stands (S.fits store.new sample.now.types) sample.now.types (S.objects store.new) (S.path store.new) desk.new }
{
    if line.is_empty() {
        *desk = begin_case(alloc, store, &sample.types);
        return tried.line("", "");
    }
    if line.starts_with("--") {
        return tried.line(line, "");
    }
    let words: Vec<&str> = line.split_whitespace().collect(alloc)?;
    let answer = ask(alloc, sample, store, desk, words.as_slice());
    tried.answer(line, answer)
}

/// Runs a script: each call with what it answered, and how many calls there were. Cases are parted by empty lines, and
/// each begins with no objects.
pub fn run<S: Store>(
    alloc: Global,
    sample: &Sample,
    store: &mut S,
    script: &str,
) -> Result<Tried, Stop>
    requires { S.fits store.old sample.now.types }
    ensures { S.fits store.new sample.now.types }
{
    let mut tried = Tried {
        report: String::new(alloc),
        calls: 0,
    };
    let mut desk = begin_case(alloc, store, &sample.types);
    for line in script.lines() {
        turn(alloc, sample, store, &mut desk, &mut tried, line)?;
    }
    Ok(tried)
}
