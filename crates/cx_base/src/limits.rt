ghost use Rattle.std.specs.Prelude.{◌≡◌};
ghost use Rattle.cx_base.specs.Limits.{is_within, limits_allowed};

/// How far the evaluation of a unit may go ([implimits]).
#[derive(Clone, Copy, Debug, PartialEq, Eq)]
pub struct Limits {
    /// Calls that haven't returned.
    pub depth: u32,
    /// Full-expressions begun in one evaluation.
    pub exprs: u32,
    /// Turns of loops, and calls, in one evaluation.
    pub turns: u32,
    /// Cells of objects that aren't released.
    pub cells: u32,
    /// Objects made in one evaluation.
    pub objects: u32,
}

/// The limits of a run that asks for no others; those of depth and full-expressions are the standard's recommendation.
pub fn standard_limits() -> Limits
    ensures { result ≡ record { depth = 512; exprs = 1_048_576; turns = 16_777_216; cells = 1_048_576; objects = 4_194_304 } }
{
    Limits {
        depth: 512,
        exprs: 1_048_576,
        turns: 16_777_216,
        cells: 1_048_576,
        objects: 4_194_304,
    }
}

fn is_within(number: u32, least: u32, most: u32) -> bool
    ensures { result ≡ is_within number least most }
{
    least <= number && number <= most
}

/// Each of the limits is within its range.
pub fn limits_allowed(limits: &Limits) -> bool
    ensures { result ≡ limits_allowed limits.now }
{
    is_within(limits.depth, 1, 4_096)
        && (is_within(limits.exprs, 1, 4_194_304)
            && (is_within(limits.turns, 1, 67_108_864)
                && (is_within(limits.cells, 1, 4_194_304)
                    && is_within(limits.objects, 1, 16_777_216))))
}
