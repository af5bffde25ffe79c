//! The numbers of objects and cells, and the limits on them ([implimits], [expr.const]).

ghost use Rattle.std.specs.Prelude.{◌≡◌, ◌↔◌, ◌⊎◌, ℕ, suc, ◌+◌, ◌<◌, ◌≤◌, true, false, [], length, Some, Ok, Err, slice_get, if◌then◌else◌};
ghost use Rattle.cx_base.specs.declared.rule.Rule.{Rule};
ghost use Rattle.cx_base.specs.declared.rule.Rule.TheVariants as rule;
ghost use Rattle.cx_base.specs.declared.limits.Limits.{Limits};
ghost use Rattle.cx_type_defs.specs.Tables.{Tables};
ghost use Rattle.cx_state.specs.Objects.{Path, Object, Objects};
ghost use Rattle.cx_state.specs.Steps.{Write, write, release, settle, cut};
ghost use Rattle.cx_state.specs.Counts.{Request, counts, new_object, cells_in, live_cells, make, next_place, SameCounts};

use crate::kind::Birth;

/// A new object is one more, its cells are added where it counts, and both numbers stay within their limits.
pub fn made_objects_count()
    ensures number { (t : Tables) (limits : Limits) (os now : Objects) (q : Request) → make t limits os q ≡ Ok now → length now ≡ suc (length os) }
    ensures number_within { (t : Tables) (limits : Limits) (os now : Objects) (q : Request) → make t limits os q ≡ Ok now → length now ≤ limits.objects }
    ensures cells { (t : Tables) (limits : Limits) (os now : Objects) (q : Request) → make t limits os q ≡ Ok now → live_cells t now ≡ live_cells t os + (if counts q.kind q.birth then cells_in t (new_object t q) else 0) }
    ensures cells_within { (t : Tables) (limits : Limits) (os now : Objects) (q : Request) → make t limits os q ≡ Ok now → live_cells t os ≤ limits.cells → live_cells t now ≤ limits.cells }
{}

/// Each limit's rule comes exactly where the next unit would pass its number, objects before cells, and no other rule
/// comes.
pub fn limits_come_exactly()
    ensures objects { (t : Tables) (limits : Limits) (os : Objects) (q : Request) → (make t limits os q ≡ Err rule.LimitObjects) ↔ (limits.objects < length os + 1) }
    ensures cells { (t : Tables) (limits : Limits) (os : Objects) (q : Request) → (make t limits os q ≡ Err rule.LimitCells) ↔ ((length os + 1 ≤ limits.objects) × (counts q.kind q.birth ≡ true) × (limits.cells < live_cells t os + cells_in t (new_object t q))) }
    ensures no_other { (t : Tables) (limits : Limits) (os : Objects) (q : Request) (r : Rule) → make t limits os q ≡ Err r → (r ≡ rule.LimitObjects) ⊎ (r ≡ rule.LimitCells) }
{}

/// A release takes the object's cells away, where it counts, and no number.
pub fn released_objects_count()
    ensures cells { (t : Tables) (os now : Objects) (p : Path) (o : Object) → slice_get os p.object ≡ Some o → release os p ≡ Ok now → live_cells t now + (if o.counted then cells_in t o else 0) ≡ live_cells t os }
    ensures number { (t : Tables) (os now : Objects) (p : Path) → release os p ≡ Ok now → length now ≡ length os }
{}

/// Nothing else that is done to an object changes these numbers.
pub fn counts_stay()
    ensures write { (t : Tables) (os now : Objects) (p : Path) (w : Write) → write t os p w ≡ Ok now → SameCounts t os now }
    ensures settle { (t : Tables) (os : Objects) (p : Path) (b : Birth) → SameCounts t os (settle os p b) }
{}

/// Where the objects from a mark on are cut off, the mark's number is drawn next.
pub fn cut_numbers_come_again()
    ensures { (os : Objects) (mark : ℕ) → mark ≤ length os → next_place (cut os mark) ≡ record { object = mark; steps = []; past = false } }
{}
