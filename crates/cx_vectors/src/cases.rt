//! Cases of whole units.
ghost use Rattle.std.specs.Prelude.{◌≡◌, ◌≤◌, true, length, IfOk};
ghost use Rattle.cx_base.specs.Limits.{limits_allowed};
ghost use Rattle.cx_vectors.specs.Cases.{TellsReport};

use cx_base::{Limits, Memory};
use cx_unit::{Mode, report, verdict_on};
use std::alloc::Global;

/// A unit, the limits that it runs under, and its report in mode print.
#[derive(Clone, Copy)]
pub struct Case {
    pub source: &'static str,
    pub limits: Limits,
    pub report: &'static str,
}

/// A table of cases.
#[derive(Clone, Copy)]
pub struct Cases<const N: usize> {
    pub rows: [Case; N],
}

/// Whether the report of the one verdict on the unit is exactly the case's.
pub fn run_case(alloc: Global, case: &Case) -> Result<bool, Memory>
    requires short { length case.now.source.now ≤ 4_194_304 }
    requires allowed { limits_allowed case.now.limits ≡ true }
    ensures { IfOk result (TellsReport case.now.limits case.now.source.now case.now.report.now) }
{
    let verdict = verdict_on(alloc, case.source.as_bytes(), case.limits)?;
    let text = report(alloc, &verdict, Mode::Print)?;
    Ok(text.as_slice() == case.report.as_bytes())
}
