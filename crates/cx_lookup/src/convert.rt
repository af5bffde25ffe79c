ghost use Rattle.std.specs.Prelude.{◌≡◌, ◌<◌, ◌&&◌, length, true, false};
ghost use Rattle.cx_type_defs.specs.Same.{form_of};
ghost use Rattle.cx_lookup.specs.Ranks.{qualifies};
ghost use Rattle.cx_lookup.specs.Levels.{gate, parts_level, level_of};

use cx_types::{TypeId, TypeKind, TypeRow, Types};

/// What one level of two types tells of a qualification conversion ([conv.qual]).
#[derive(Clone, Copy, Debug, PartialEq, Eq)]
pub(crate) enum Level {
    Settled(bool),
    /// As the types below do, where each level above them is const if the flag is set.
    Below(bool, TypeId, TypeId),
}

/// Whether const may stand so at one level.
fn may_stand(above: bool, source: bool, target: bool) -> bool
    ensures { result ≡ gate above source target }
{
    if target { source || above } else { !source }
}

/// Whether the levels above and this one are const.
fn are_const(above: bool, here: bool) -> bool
    ensures { result ≡ above && here }
{
    above && here
}

/// What a level tells, const at it aside.
fn kinds(above: bool, below: bool, source: TypeKind, target: TypeKind) -> Level
    ensures { result ≡ parts_level above below source target }
{
    match (source, target) {
        (TypeKind::Void, TypeKind::Void) => Level::Settled(true),
        (TypeKind::Nullptr, TypeKind::Nullptr) => Level::Settled(true),
        (TypeKind::Int(a), TypeKind::Int(b)) => Level::Settled(a == b),
        (TypeKind::Enum(a), TypeKind::Enum(b)) => Level::Settled(a.0 == b.0),
        (TypeKind::Class(a), TypeKind::Class(b)) => Level::Settled(a.0 == b.0),
        (TypeKind::Pointer(f), TypeKind::Pointer(t)) => Level::Below(below, f, t),
        (TypeKind::Array(f, n), TypeKind::Array(t, m)) => {
            if n == m {
                Level::Below(above, f, t)
            } else {
                Level::Settled(false)
            }
        }
        _ => Level::Settled(false),
    }
}

/// What a level tells.
fn at_level(above: bool, source: TypeRow, target: TypeRow) -> Level
    ensures { result ≡ level_of above source target }
{
    if may_stand(above, source.konst, target.konst) {
        kinds(
            above,
            are_const(above, target.konst),
            source.kind,
            target.kind,
        )
    } else {
        Level::Settled(false)
    }
}

/// Whether a pointer to the one type converts to a pointer to the other by const alone; each level above is const in the
/// target where the flag says so ([conv.qual]).
pub fn adds_const(types: &Types, above: bool, from: TypeId, to: TypeId) -> bool
    requires source { from.0 < length types.now.rows }
    requires target { to.0 < length types.now.rows }
    ensures { result ≡ qualifies above false (form_of true types.now from) (form_of true types.now to) }
{
    types.sound();
    let source = types.row(from);
    let target = types.row(to);
    match at_level(above, source, target) {
        Level::Settled(same) => same,
        Level::Below(next, f, t) => adds_const(types, next, f, t),
    }
}
