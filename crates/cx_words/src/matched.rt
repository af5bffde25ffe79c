//! The job that the matched options give.
ghost use Rattle.std.specs.Prelude.{◌≡◌, codes};
ghost use Rattle.clap.specs.Words.{first_of, found_of, one_of, rows_of};
ghost use Rattle.cx_words.specs.Asked.{job_allowed, job_of, limits_of, mode_of, mode_of_text, number_of};

use crate::{Job, JobMode};
use clap::ArgMatches;
use cx_base::{Limits, limits_allowed};

fn mode_of_text(text: &str) -> Option<JobMode>
    ensures { result ≡ mode_of_text text.now }
{
    match text {
        "print" => Some(JobMode::Print),
        "check" => Some(JobMode::Check),
        "notes" => Some(JobMode::Notes),
        "make" => Some(JobMode::Make),
        _ => None,
    }
}

fn mode_in(matches: &ArgMatches<'_>) -> Option<JobMode>
    ensures { result ≡ mode_of (first_of (codes "mode") (rows_of (found_of matches.now))) }
{
    match matches.get_str("mode") {
        Some(text) => mode_of_text(text),
        None => None,
    }
}

fn number_in(matches: &ArgMatches<'_>, name: &str) -> u32
    ensures { result ≡ number_of (one_of name.now (rows_of (found_of matches.now))) }
{
    matches.get_one::<u32>(name).unwrap_or(0)
}

fn limits_in(matches: &ArgMatches<'_>) -> Limits
    ensures { result ≡ limits_of (rows_of (found_of matches.now)) }
{
    Limits {
        depth: number_in(matches, "depth"),
        exprs: number_in(matches, "exprs"),
        turns: number_in(matches, "turns"),
        cells: number_in(matches, "cells"),
        objects: number_in(matches, "objects"),
    }
}

// The job's numbers are within their ranges.
fn job_allowed(job: &Job) -> bool
    ensures { result ≡ job_allowed job.now }
{
    limits_allowed(&job.limits) && job.count <= 10_000
}

/// The job, unless the mode's text is no mode.
pub(crate) fn job_in(matches: &ArgMatches<'_>) -> Option<Job>
    ensures { result ≡ job_of (rows_of (found_of matches.now)) }
{
    let mode = mode_in(matches)?;
    let job = Job {
        mode,
        limits: limits_in(matches),
        seed: number_in(matches, "seed"),
        count: number_in(matches, "count"),
    };
    if job_allowed(&job) { Some(job) } else { None }
}
