ghost use Rattle.std.specs.Prelude.{◌≡◌, ◌++◌, IfOk, OnOk};
ghost use Rattle.std.specs.List.{flat_map};
ghost use Rattle.cx_report.specs.Report.{diag_text, frame_text, frames_text, kind_text, last_value, line_text, lines_text, mark_text, report_of, span_text, summary_of};

use crate::verdict::{Line, LineKind, Mode, Verdict};
use cx_append::{append, append_number};
use cx_base::{Diag, Frame, Mark, Memory, Span, rule_tag};
use std::alloc::Global;

fn put_mark(out: &mut Vec<u8>, mark: Mark) -> Result<(), Memory>
    ensures { OnOk result (out.new.items ≡ out.old.items ++ mark_text mark) }
{
    append_number(out, u64::from(mark.line))?;
    append(out, b":")?;
    append_number(out, u64::from(mark.col))
}

fn put_span(out: &mut Vec<u8>, span: Span) -> Result<(), Memory>
    ensures { OnOk result (out.new.items ≡ out.old.items ++ span_text span) }
{
    put_mark(out, span.start)?;
    append(out, b"-")?;
    put_mark(out, span.end)
}

fn kind_name(kind: LineKind) -> &'static str
    ensures { result.now ≡ kind_text kind }
{
    match kind {
        LineKind::Constexpr => "constexpr",
    }
}

#[tactic(auto, using(std::proofs::lemmas::List::append_assoc), unfolding(crate::specs::Report::line_text))]
fn put_line(out: &mut Vec<u8>, line: &Line) -> Result<(), Memory>
    ensures { OnOk result (out.new.items ≡ out.old.items ++ line_text line.now) }
{
    put_mark(out, line.start)?;
    append(out, b" ")?;
    append(out, kind_name(line.kind).as_bytes())?;
    append(out, b" ")?;
    append(out, line.name.as_slice())?;
    append(out, b" = ")?;
    append(out, line.text.as_slice())?;
    append(out, b"\n")
}

#[tactic(auto, using(std::proofs::lemmas::List::append_assoc), unfolding(crate::specs::Report::frame_text))]
fn put_frame(out: &mut Vec<u8>, frame: &Frame) -> Result<(), Memory>
    ensures { OnOk result (out.new.items ≡ out.old.items ++ frame_text frame.now) }
{
    put_span(out, frame.span)?;
    append(out, b" in ")?;
    append(out, frame.name.as_slice())?;
    append(out, b"\n")
}

#[tactic(auto, using(std::proofs::lemmas::List::append_assoc), unfolding(crate::specs::Report::diag_text))]
fn put_diag(out: &mut Vec<u8>, diag: &Diag) -> Result<(), Memory>
    ensures { OnOk result (out.new.items ≡ out.old.items ++ diag_text diag.now) }
{
    put_span(out, diag.span)?;
    append(out, b" ")?;
    append(out, rule_tag(diag.rule).as_bytes())?;
    append(out, b"\n")
}

fn put_each_line(out: &mut Vec<u8>, lines: &[Line]) -> Result<(), Memory>
    ensures { OnOk result (out.new.items ≡ out.old.items ++ flat_map line_text lines.now) }
{
    'lines: for line in lines {
        put_line(out, line)?;
    }
    Ok(())
}

fn put_each_frame(out: &mut Vec<u8>, frames: &[Frame]) -> Result<(), Memory>
    ensures { OnOk result (out.new.items ≡ out.old.items ++ flat_map frame_text frames.now) }
{
    'frames: for frame in frames {
        put_frame(out, frame)?;
    }
    Ok(())
}

fn put_lines(out: &mut Vec<u8>, mode: Mode, lines: &[Line]) -> Result<(), Memory>
    ensures { OnOk result (out.new.items ≡ out.old.items ++ lines_text mode lines.now) }
{
    match mode {
        Mode::Print | Mode::Notes => put_each_line(out, lines),
        Mode::Check => Ok(()),
    }
}

fn put_frames(out: &mut Vec<u8>, mode: Mode, frames: &[Frame]) -> Result<(), Memory>
    ensures { OnOk result (out.new.items ≡ out.old.items ++ frames_text mode frames.now) }
{
    match mode {
        Mode::Print | Mode::Check => Ok(()),
        Mode::Notes => put_each_frame(out, frames),
    }
}

/// The report of a verdict: a line for each constant and their number, or the line of the diagnostic. The mode
/// `Check` leaves the lines out, and the mode `Notes` adds the calls that lead to the diagnostic, innermost first.
#[tactic(auto, using(std::proofs::lemmas::List::append_assoc), unfolding(crate::specs::Report::report_of))]
pub fn report(alloc: Global, verdict: &Verdict, mode: Mode) -> Result<Vec<u8>, Memory>
    ensures { IfOk result (λ report. report.items ≡ report_of mode verdict.now) }
{
    let mut out = Vec::new(alloc);
    match verdict {
        Verdict::Accepted(lines) => {
            put_lines(&mut out, mode, lines.as_slice())?;
            append(&mut out, b"accepted ")?;
            append_number(&mut out, lines.len() as u64)?;
            append(&mut out, b"\n")?;
        }
        Verdict::Refused(diag) => {
            put_diag(&mut out, diag)?;
            put_frames(&mut out, mode, diag.frames.as_slice())?;
        }
    }
    Ok(out)
}

fn last_value(lines: &[Line]) -> &[u8]
    ensures { result.now ≡ last_value lines.now }
{
    match lines.last() {
        Some(line) => line.text.as_slice(),
        None => b"",
    }
}

/// What is told of the verdict on a made unit with so many bytes: their number, the number of constants and the last
/// constant's value, or the line of the diagnostic.
#[tactic(auto, using(std::proofs::lemmas::List::append_assoc), unfolding(crate::specs::Report::summary_of))]
pub fn summary(alloc: Global, bytes: u64, verdict: &Verdict) -> Result<Vec<u8>, Memory>
    ensures { IfOk result (λ summary. summary.items ≡ summary_of bytes verdict.now) }
{
    let mut out = Vec::new(alloc);
    match verdict {
        Verdict::Accepted(lines) => {
            append(&mut out, b"made ")?;
            append_number(&mut out, bytes)?;
            append(&mut out, b" bytes, accepted ")?;
            append_number(&mut out, lines.len() as u64)?;
            append(&mut out, b", last ")?;
            append(&mut out, last_value(lines.as_slice()))?;
            append(&mut out, b"\n")?;
        }
        Verdict::Refused(diag) => put_diag(&mut out, diag)?,
    }
    Ok(out)
}
