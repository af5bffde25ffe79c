//! What the evaluator says of a row.

use crate::rows::{Kind, Row, nested};
use anyhow::{Context, Result, anyhow, bail, ensure};
use cx_base::{RULES, Rule, rule_tag, standard_limits};
use cx_tokens::lex;
use cx_unit::{Mode, Verdict, report, verdict_on};
use std::alloc::Global;
use std::io::Write;

// The longest source, in bytes.
const LONGEST_SOURCE: usize = 4_194_304;

// A rule that the source's text breaks, so that there is no tree of it.
fn is_of_text(rule: Rule) -> bool {
    matches!(
        rule,
        Rule::SourceTooLong
            | Rule::Directive
            | Rule::LeftOut
            | Rule::BadByte
            | Rule::OpenComment
            | Rule::BadNumber
            | Rule::NumberRange
            | Rule::BadCharacter
            | Rule::BadEscape
            | Rule::OpenString
            | Rule::LongName
            | Rule::Syntax
            | Rule::Nesting
    )
}

fn has_tree(verdict: &Verdict) -> bool {
    match verdict {
        Verdict::Accepted(_) => true,
        Verdict::Refused(diag) => !is_of_text(diag.rule),
    }
}

fn judged(alloc: Global, source: &[u8]) -> Result<Verdict> {
    ensure!(source.len() <= LONGEST_SOURCE, "too long a unit");
    verdict_on(alloc, source, standard_limits()).map_err(|_| anyhow!("out of memory"))
}

fn tell_report<W: Write>(alloc: Global, verdict: &Verdict, out: &mut W) -> Result<()> {
    let text = report(alloc, verdict, Mode::Print).map_err(|_| anyhow!("out of memory"))?;
    out.write_all(text.as_slice())?;
    Ok(())
}

// A line `tree`, or the report of the first fault of the text.
fn tell_tree<W: Write>(alloc: Global, source: &[u8], out: &mut W) -> Result<()> {
    let verdict = judged(alloc, source)?;
    if has_tree(&verdict) {
        out.write_all(b"tree\n")?;
        return Ok(());
    }
    tell_report(alloc, &verdict, out)
}

// What is told of each front of a unit that ends with a token.
fn tell_fronts<W: Write>(alloc: Global, source: &[u8], out: &mut W) -> Result<()> {
    ensure!(source.len() <= LONGEST_SOURCE, "too long a unit");
    let Ok(tokens) = lex(alloc, source) else {
        bail!("no tokens");
    };
    for token in tokens.as_slice() {
        let front = source
            .get(..token.span.end.byte as usize)
            .context("a token past the end")?;
        tell_tree(alloc, front, out)?;
    }
    Ok(())
}

// Each rule in order, with its tag in the table and the tag that `rule_tag` gives.
fn tell_rules<W: Write>(out: &mut W) -> Result<()> {
    let table = RULES;
    for row in table.rows.iter() {
        writeln!(out, "{:?} {} {}", row.rule, row.tag, rule_tag(row.rule))?;
    }
    Ok(())
}

/// Writes a row's name, and what is told of its unit.
pub fn tell<W: Write>(alloc: Global, row: &Row, out: &mut W) -> Result<()> {
    if row.name.is_empty() {
        return Ok(());
    }
    writeln!(out, "== {}", row.name)?;
    match row.kind {
        Kind::Tree => tell_tree(alloc, row.source(), out),
        Kind::Report => tell_report(alloc, &judged(alloc, row.source())?, out),
        Kind::Rules => tell_rules(out),
        Kind::Fronts => tell_fronts(alloc, row.source(), out),
        Kind::Nest(times) => {
            let unit = nested(alloc, row.source(), times)?;
            tell_tree(alloc, unit.as_slice(), out)
        }
    }
}
