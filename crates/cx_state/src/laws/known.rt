//! Known places: which stay known, and which steps give known places ([basic.compound], [expr.add]).

ghost use Rattle.std.specs.Prelude.{◌≡◌, ℕ, ◌<◌, ◌≤◌, length, Some, Ok, ℤ};
ghost use Rattle.cx_base.specs.declared.limits.Limits.{Limits};
ghost use Rattle.cx_type_defs.specs.declared.ids.TypeId.{TypeId};
ghost use Rattle.cx_type_defs.specs.declared.ids.ClassId.{ClassId};
ghost use Rattle.cx_type_defs.specs.declared.kind.TypeRow.{TypeRow};
ghost use Rattle.cx_type_defs.specs.declared.kind.TypeKind.{TypeKind};
ghost use Rattle.cx_type_defs.specs.declared.kind.TypeKind.TheVariants as kind;
ghost use Rattle.cx_type_defs.specs.declared.decl.Field.{Field};
ghost use Rattle.cx_type_defs.specs.Tables.{Tables, base_of, field_of};
ghost use Rattle.cx_state.specs.Objects.{Path, Tree, Objects, put};
ghost use Rattle.cx_state.specs.Places.{row_of};
ghost use Rattle.cx_state.specs.Steps.{to_field, to_base, to_elem, load, Write, write, release, settle, cut, outer, dynamic_class};
ghost use Rattle.cx_state.specs.Pointers.{add};
ghost use Rattle.cx_state.specs.Counts.{Request, make, next_place};
ghost use Rattle.cx_state.specs.Forms.{MayHold, Fit, Knows, KnowsIn};

use crate::kind::{Birth, Scalar};

/// A place that is known stays known whatever step is done, save that cutting objects off keeps the places in those
/// that stay.
pub fn known_places_stay()
    ensures put { (t : Tables) (os : Objects) (f : Tree → Tree) (p q : Path) → Knows t os q → Knows t (put f os p) q }
    ensures write { (t : Tables) (os now : Objects) (p q : Path) (w : Write) → write t os p w ≡ Ok now → Knows t os q → Knows t now q }
    ensures release { (t : Tables) (os now : Objects) (p q : Path) → release os p ≡ Ok now → Knows t os q → Knows t now q }
    ensures settle { (t : Tables) (os : Objects) (p q : Path) (b : Birth) → Knows t os q → Knows t (settle os p b) q }
    ensures make { (t : Tables) (limits : Limits) (os now : Objects) (made : Request) (q : Path) → make t limits os made ≡ Ok now → Knows t os q → Knows t now q }
    ensures cut { (t : Tables) (os : Objects) (mark : ℕ) (q : Path) → q.object < mark → Knows t os q → Knows t (cut os mark) q }
{}

/// The place of a new object is known, where its type is one of the tables.
pub fn new_places_are_known()
    ensures { (t : Tables) (limits : Limits) (os now : Objects) (made : Request) → made.ty.0 < length t.rows → make t limits os made ≡ Ok now → Knows t now (next_place os) }
{}

/// The place of a part that the type has is known: a member, a base, an element, and the place past the last element.
pub fn parts_are_known()
    ensures field { (t : Tables) (os : Objects) (p q : Path) (i : ℕ) (r : TypeRow) (c : ClassId) (f : Field) → row_of t os p ≡ Some r → r.kind ≡ kind.Class c → field_of t c i ≡ Some f → f.ty.0 < length t.rows → to_field t os p i ≡ Ok q → Knows t os q }
    ensures base { (t : Tables) (os : Objects) (p q : Path) (i : ℕ) (r : TypeRow) (c b : ClassId) → row_of t os p ≡ Some r → r.kind ≡ kind.Class c → base_of t c i ≡ Some b → to_base t os p i ≡ Ok q → Knows t os q }
    ensures elem { (t : Tables) (os : Objects) (p q : Path) (i : ℕ) (r : TypeRow) (of : TypeId) (n : ℕ) → row_of t os p ≡ Some r → r.kind ≡ kind.Array of n → of.0 < length t.rows → i ≤ n → to_elem t os p i ≡ Ok q → Knows t os q }
{}

/// A place that one comes to from a known one is known.
pub fn reached_places_are_known()
    ensures add { (t : Tables) (os : Objects) (p q : Path) (by : ℤ) → Knows t os p → add t os p by ≡ Ok q → Knows t os q }
    ensures outer { (t : Tables) (os : Objects) (p q : Path) (c : ClassId) → Knows t os p → outer t os p c ≡ Ok q → Knows t os q }
    ensures dynamic { (t : Tables) (os : Objects) (p q : Path) (c : ClassId) → dynamic_class t os p ≡ Ok (Some (c, q)) → Knows t os q }
{}

/// A place that a scalar holds is known, where the objects have the forms of their types.
pub fn held_places_are_known()
    ensures may_hold { (t : Tables) (os : Objects) (k : TypeKind) (v : Scalar Path) → MayHold t os k v → KnowsIn t os v }
    ensures load { (t : Tables) (os : Objects) (p : Path) (v : Scalar Path) → Fit t os → Knows t os p → load t os p ≡ Ok v → KnowsIn t os v }
{}
