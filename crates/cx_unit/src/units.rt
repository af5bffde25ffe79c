//! The verdict on a unit.
ghost use Rattle.std.specs.Prelude.{ℕ, List as Seq, ◌≡◌, ◌≤◌, true, length, IfOk};
ghost use Rattle.cx_base.specs.Limits.{limits_allowed};
ghost use Rattle.cx_base.specs.Only.{IsOnly};
ghost use Rattle.cx_tokens.specs.Reached.{Answers};
ghost use Rattle.cx_unit_parser.specs.Parsing.{EndsInEnd};
ghost use Rattle.cx_unit.specs.Verdict.{IsVerdict, IsVerdictFrom, RefusedBy, StoppedBy, source_too_long};

use crate::decls::{refused, verdict_of};
use crate::found::Broken;
use cx_base::{Limits, List, Mark, Memory, Rule, Span};
use cx_report::Verdict;
use cx_tokens::{LexAnswer, Token, lex};
use cx_unit_parser::{ParseAnswer, parse_unit};
use std::alloc::Global;

fn stopped_by(answer: ParseAnswer) -> Result<Verdict, Memory>
    ensures { IfOk result (StoppedBy answer) }
{
    match answer {
        ParseAnswer::Fault(fault) => Ok(Verdict::Refused(fault)),
        ParseAnswer::Memory => Err(Memory),
    }
}

/// The one verdict under these limits of the tokens of a unit, the last of which is that of the source's end: its first
/// token that no unit goes on with, else the first rule that a declaration breaks, else a line for each constant.
pub fn run_unit(alloc: Global, tokens: List<Token>, limits: Limits) -> Result<Verdict, Memory>
    requires end { EndsInEnd tokens }
    requires allowed { limits_allowed limits ≡ true }
    ensures { IfOk result (IsOnly (IsVerdictFrom limits tokens)) }
{
    match parse_unit(alloc, tokens) {
        Ok(unit) => verdict_of(alloc, &unit, limits),
        Err(answer) => stopped_by(answer),
    }
}

/// The verdict of a source with too many bytes.
pub fn too_long(alloc: Global) -> Verdict
    ensures { result ≡ source_too_long }
{
    let mark = Mark {
        byte: 0,
        line: 1,
        col: 1,
    };
    let span = Span {
        start: mark,
        end: mark,
    };
    refused(
        alloc,
        Broken {
            rule: Rule::SourceTooLong,
            span,
        },
    )
}

fn refused_by(answer: LexAnswer) -> Result<Verdict, Memory>
    ensures { IfOk result (RefusedBy answer) }
{
    match answer {
        LexAnswer::Fault(fault) => Ok(Verdict::Refused(fault)),
        LexAnswer::Memory => Err(Memory),
    }
}

/// The one verdict under these limits on a source of at most 4,194,304 bytes of which a lexer answers this: its first
/// lexical fault, or the verdict of its tokens.
pub fn verdict_of_lexed(
    alloc: Global,
    lexed: Result<List<Token>, LexAnswer>,
    limits: Limits,
) -> Result<Verdict, Memory>
    requires lexed { (bytes : Seq ℕ) × (length bytes ≤ 4_194_304) × Answers bytes lexed }
    requires allowed { limits_allowed limits ≡ true }
    ensures { (bytes : Seq ℕ) → length bytes ≤ 4_194_304 → Answers bytes lexed → IfOk result (IsOnly (IsVerdict limits bytes)) }
{
    match lexed {
        Ok(tokens) => run_unit(alloc, tokens, limits),
        Err(answer) => refused_by(answer),
    }
}

/// The one verdict under these limits on a source of these bytes, which are at most 4,194,304: its first lexical fault,
/// or the verdict of its tokens.
pub fn verdict_on(alloc: Global, bytes: &[u8], limits: Limits) -> Result<Verdict, Memory>
    requires short { length bytes.now ≤ 4_194_304 }
    requires allowed { limits_allowed limits ≡ true }
    ensures { IfOk result (IsOnly (IsVerdict limits bytes.now)) }
{
    verdict_of_lexed(alloc, lex(alloc, bytes), limits)
}
