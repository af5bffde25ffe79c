//! The command and its options, as `clap` takes them.
ghost use Rattle.std.specs.Prelude.{◌≡◌, codes, false, IfOk};
ghost use Rattle.clap.specs.Words.{app_of, new_app, rule_of, with_rule};
ghost use Rattle.cx_words.specs.Command.{cx_app, mode_rule, number_rule, rule_of_option};

use clap::{Arg, Command};
use std::alloc::{AllocError, Global};

/// An option that takes a number.
#[derive(Clone, Copy)]
pub(crate) enum NumberOption {
    Depth,
    Exprs,
    Turns,
    Cells,
    Objects,
    Seed,
    Count,
}

// An option with a number from `least` to `most`.
fn number<'a>(alloc: Global, name: &'a str, least: u32, most: u32, default: &'a str) -> Arg<'a>
    ensures local { result.global ≡ false }
    ensures rule { rule_of result ≡ number_rule name.entry.now least most default.entry.now }
{
    let range = i64::from(least)..=i64::from(most);
    Arg::new(alloc, name)
        .long(name)
        .value_parser(clap::value_parser!(u32).range(range))
        .default_value(default)
}

// The option with its name, its range and its default.
fn number_option<'a>(alloc: Global, option: NumberOption) -> Arg<'a>
    ensures local { result.global ≡ false }
    ensures rule { rule_of result ≡ rule_of_option option }
{
    match option {
        NumberOption::Depth => number(alloc, "depth", 1, 4_096, "512"),
        NumberOption::Exprs => number(alloc, "exprs", 1, 4_194_304, "1048576"),
        NumberOption::Turns => number(alloc, "turns", 1, 67_108_864, "16777216"),
        NumberOption::Cells => number(alloc, "cells", 1, 4_194_304, "1048576"),
        NumberOption::Objects => number(alloc, "objects", 1, 16_777_216, "4194304"),
        NumberOption::Seed => number(alloc, "seed", 0, u32::MAX, "1"),
        NumberOption::Count => number(alloc, "count", 1, 10_000, "100"),
    }
}

// The command with an option more.
fn with_number<'a>(
    alloc: Global,
    command: Command<'a>,
    option: NumberOption,
) -> Result<Command<'a>, AllocError>
    ensures { IfOk result (λ c. app_of c ≡ with_rule (app_of command.entry) (rule_of_option option)) }
{
    command.arg(number_option(alloc, option))
}

// The command with the option for the mode alone.
fn with_mode<'a>(alloc: Global) -> Result<Command<'a>, AllocError>
    ensures { IfOk result (λ c. app_of c ≡ with_rule (new_app (codes "cxeval")) mode_rule) }
{
    let mode = Arg::new(alloc, "mode").long("mode").default_value("print");
    Command::new(alloc, "cxeval").arg(mode)
}

/// The command with all its options.
pub(crate) fn command<'a>(alloc: Global) -> Result<Command<'a>, AllocError>
    ensures { IfOk result (λ c. app_of c ≡ cx_app) }
{
    let mode = with_mode(alloc)?;
    let depth = with_number(alloc, mode, NumberOption::Depth)?;
    let exprs = with_number(alloc, depth, NumberOption::Exprs)?;
    let turns = with_number(alloc, exprs, NumberOption::Turns)?;
    let cells = with_number(alloc, turns, NumberOption::Cells)?;
    let objects = with_number(alloc, cells, NumberOption::Objects)?;
    let seed = with_number(alloc, objects, NumberOption::Seed)?;
    let count = with_number(alloc, seed, NumberOption::Count)?;
    Ok(count)
}
