ghost use Rattle.std.specs.Prelude.{◌≡◌, ℕ, ◌+◌, ◌*◌, ◌<◌, ◌≤◌, true, false, List, [], length, map, min, max, sum, IfSome};
ghost use Rattle.cx_type_defs.specs.Questions.{most, by_key, all_true, any_true, end_of, widest, class_extent, literal_of, extent_of};
ghost use Rattle.cx_types.specs.Kept.{Fitting};
ghost use Rattle.cx_types.specs.Parts.{laid, IsAllSized, AreGood, Capped, WasMeasured};

use crate::facts::{Facts, Measure};
use crate::sums::{
    all_literal, all_sized, any_literal, deepest, largest, last_end, round_up, strictest_align,
    total_cells, total_nodes, widest_size,
};
use cx_type_defs::{ClassFlags, ClassKey, Extent};

const MOST_DEPTH: u32 = 512;

const MOST_CELLS: u64 = 1_073_741_824;

const MOST_NODES: u64 = 1_048_576;

/// The cells of a class, exactly where they are within the limit.
fn class_cells(key: ClassKey, bases: &[Measure], fields: &[Measure]) -> u64
    requires { AreGood fields.now }
    ensures { Capped 1_073_741_824 (by_key key (most (map (λ m. m.facts.cells) fields.now)) (sum (map (λ m. m.facts.cells) bases.now) + sum (map (λ m. m.facts.cells) fields.now)) + 1) result }
{
    match key {
        ClassKey::Union => u64::from(largest(fields)) + 1,
        ClassKey::Struct => total_cells(bases) + total_cells(fields) + 1,
        ClassKey::Class => total_cells(bases) + total_cells(fields) + 1,
    }
}

/// The nodes of a class, exactly where they are within the limit.
fn class_nodes(bases: &[Measure], fields: &[Measure]) -> u64
    ensures { Capped 1_048_576 (sum (map (λ m. m.facts.nodes) bases.now) + sum (map (λ m. m.facts.nodes) fields.now) + 1) result }
{
    total_nodes(bases) + total_nodes(fields) + 1
}

fn literal_fields(key: ClassKey, fields: &[Measure]) -> bool
    ensures { result ≡ by_key key (any_true (map (λ m. m.facts.literal) fields.now)) (all_true (map (λ m. m.facts.literal) fields.now)) }
{
    match key {
        ClassKey::Union => any_literal(fields),
        ClassKey::Struct => all_literal(fields),
        ClassKey::Class => all_literal(fields),
    }
}

fn class_literal(key: ClassKey, flags: ClassFlags, bases: &[Measure], fields: &[Measure]) -> bool
    ensures { result ≡ literal_of.of_class key flags (map (λ m. m.facts.literal) bases.now) (map (λ m. m.facts.literal) fields.now) }
{
    let made = flags.aggregate | flags.constexpr_ctor;
    flags.constexpr_dtor & made & all_literal(bases) & literal_fields(key, fields)
}

/// The bytes that the members take, before the class is padded.
fn used_size(key: ClassKey, fields: &[Measure]) -> u64
    requires good { AreGood fields.now }
    requires sized { IsAllSized fields.now }
    requires few { by_key key 0 (sum (map (λ m. m.facts.cells) fields.now)) ≤ 1_073_741_824 }
    ensures exact { result ≡ by_key key (widest (map laid fields.now)) (end_of 0 (map laid fields.now)) }
    ensures near { result ≤ 16 * by_key key (most (map (λ m. m.facts.cells) fields.now)) (sum (map (λ m. m.facts.cells) fields.now)) }
{
    match key {
        ClassKey::Union => widest_size(fields),
        ClassKey::Struct => last_end(fields),
        ClassKey::Class => last_end(fields),
    }
}

fn sized_extent(key: ClassKey, fields: &[Measure]) -> Extent
    requires good { AreGood fields.now }
    requires sized { IsAllSized fields.now }
    requires few { by_key key (most (map (λ m. m.facts.cells) fields.now)) (sum (map (λ m. m.facts.cells) fields.now)) ≤ 1_073_741_824 }
    ensures exact { result ≡ class_extent key (map laid fields.now) }
    ensures fits { Fitting (by_key key (most (map (λ m. m.facts.cells) fields.now)) (sum (map (λ m. m.facts.cells) fields.now)) + 1) result }
{
    let align = strictest_align(fields).max(1);
    let used = used_size(key, fields);
    Extent {
        size: round_up(used, align).max(1),
        align,
    }
}

fn plain_extent(
    key: ClassKey,
    flags: ClassFlags,
    bases: &[Measure],
    fields: &[Measure],
) -> Option<Extent>
    requires good { AreGood fields.now }
    requires few { by_key key (most (map (λ m. m.facts.cells) fields.now)) (sum (map (λ m. m.facts.cells) bases.now) + sum (map (λ m. m.facts.cells) fields.now)) ≤ 1_073_741_824 }
    ensures exact { result ≡ extent_of.of_class key flags (map (λ m. m.extent) bases.now) (map (λ m. m.extent) fields.now) }
    ensures fits { IfSome result (λ e. Fitting (by_key key (most (map (λ m. m.facts.cells) fields.now)) (sum (map (λ m. m.facts.cells) bases.now) + sum (map (λ m. m.facts.cells) fields.now)) + 1) e) }
{
    if !bases.is_empty() {
        return None;
    }
    if flags.has_virtual {
        return None;
    }
    if !all_sized(fields) {
        return None;
    }
    Some(sized_extent(key, fields))
}

/// The measure of a class by those of its bases and members; None where it is too large.
pub fn measured(
    key: ClassKey,
    flags: ClassFlags,
    bases: &[Measure],
    fields: &[Measure],
) -> Option<Measure>
    requires good_bases { AreGood bases.now }
    requires good_fields { AreGood fields.now }
    ensures { WasMeasured key flags bases.now fields.now result }
{
    let depth = deepest(bases).max(deepest(fields)) + 1;
    let cells = class_cells(key, bases, fields);
    let nodes = class_nodes(bases, fields);
    if depth > MOST_DEPTH {
        return None;
    }
    if cells > MOST_CELLS {
        return None;
    }
    if nodes > MOST_NODES {
        return None;
    }
    Some(Measure {
        facts: Facts {
            depth,
            cells: cells as u32,
            nodes: nodes as u32,
            literal: class_literal(key, flags, bases, fields),
        },
        extent: plain_extent(key, flags, bases, fields),
    })
}
