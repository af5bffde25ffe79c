ghost use Rattle.std.specs.Prelude.{◌≡◌, ℕ, ◌+◌, ◌*◌, ◌<◌, ◌≤◌, true, List, [], ◌∷◌, ◌++◌, length, map, min, max, sum, slice_get, is_some, take};
ghost use Rattle.cx_type_defs.specs.Questions.{most, all_true, any_true, end_of, rounded, widest, strictest};
ghost use Rattle.cx_types.specs.Parts.{laid, IsAllSized, AreGood};

use crate::facts::Measure;
use cx_type_defs::Extent;

/// One more than the most cells of a type.
pub const CELLS_CAP: u64 = 1_073_741_825;
/// One more than the most nodes of a type.
pub const NODES_CAP: u64 = 1_048_577;

pub fn deepest(parts: &[Measure]) -> u32
    ensures { result ≡ most (map (λ m. m.facts.depth) parts.now) }
{
    let mut depth = 0;
    for part in parts {
        depth = part.facts.depth.max(depth);
    }
    depth
}

pub fn largest(parts: &[Measure]) -> u32
    ensures { result ≡ most (map (λ m. m.facts.cells) parts.now) }
{
    let mut cells = 0;
    for part in parts {
        cells = part.facts.cells.max(cells);
    }
    cells
}

/// The sum of the cells, or `CELLS_CAP` where it is more.
pub fn total_cells(parts: &[Measure]) -> u64
    ensures { result ≡ min (sum (map (λ m. m.facts.cells) parts.now)) CELLS_CAP }
{
    let mut cells = 0;
    for part in parts {
        cells = (cells + u64::from(part.facts.cells)).min(CELLS_CAP);
    }
    cells
}

/// The sum of the nodes, or `NODES_CAP` where it is more.
pub fn total_nodes(parts: &[Measure]) -> u64
    ensures { result ≡ min (sum (map (λ m. m.facts.nodes) parts.now)) NODES_CAP }
{
    let mut nodes = 0;
    for part in parts {
        nodes = (nodes + u64::from(part.facts.nodes)).min(NODES_CAP);
    }
    nodes
}

pub fn all_literal(parts: &[Measure]) -> bool
    ensures { result ≡ all_true (map (λ m. m.facts.literal) parts.now) }
{
    let mut all = true;
    for part in parts {
        all = all & part.facts.literal;
    }
    all
}

pub fn any_literal(parts: &[Measure]) -> bool
    ensures { result ≡ any_true (map (λ m. m.facts.literal) parts.now) }
{
    let mut any = false;
    for part in parts {
        any = any | part.facts.literal;
    }
    any
}

pub fn all_sized(parts: &[Measure]) -> bool
    ensures { result ≡ all_true (map (λ m. is_some m.extent) parts.now) }
{
    let mut all = true;
    for part in parts {
        all = all & part.extent.is_some();
    }
    all
}

fn laid_extent(part: &Measure) -> Extent
    ensures { result ≡ laid part.now }
{
    match part.extent {
        Some(extent) => extent,
        None => Extent { size: 0, align: 1 },
    }
}

pub fn round_up(n: u64, to: u64) -> u64
    requires some { 1 ≤ to }
    requires few { to ≤ 8 }
    requires room { n ≤ 17_179_869_184 }
    ensures exact { result ≡ rounded n to }
    ensures near { result ≤ n + 7 }
{
    (n + (to - 1)) / to * to
}

/// The size of the largest part.
pub fn widest_size(parts: &[Measure]) -> u64
    ensures { result ≡ most (map (λ m. (laid m).size) parts.now) }
{
    let mut size = 0;
    for part in parts {
        size = laid_extent(part).size.max(size);
    }
    size
}

/// The largest alignment of a part.
pub fn strictest_align(parts: &[Measure]) -> u64
    ensures { result ≡ most (map (λ m. (laid m).align) parts.now) }
{
    let mut align = 0;
    for part in parts {
        align = laid_extent(part).align.max(align);
    }
    align
}

/// Where the last part ends.
pub fn last_end(parts: &[Measure]) -> u64
    requires good { AreGood parts.now }
    requires sized { IsAllSized parts.now }
    requires few { sum (map (λ m. m.facts.cells) parts.now) ≤ 1_073_741_824 }
    ensures exact { result ≡ end_of 0 (map laid parts.now) }
    ensures near { result ≤ 16 * sum (map (λ m. m.facts.cells) parts.now) }
{
    let mut at = 0;
    for part in parts {
        let extent = laid_extent(part);
        at = round_up(at, extent.align) + extent.size;
    }
    at
}
