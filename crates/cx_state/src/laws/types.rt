//! The types of places: steps leave them, and tell them of the places that they give ([basic.types], [basic.compound]).

ghost use Rattle.std.specs.Prelude.{◌≡◌, ℕ, ◌<◌, ◌≤◌, true, Option, Some, is_some, Ok, slice_get, ℤ};
ghost use Rattle.cx_base.specs.declared.limits.Limits.{Limits};
ghost use Rattle.cx_type_defs.specs.declared.ids.TypeId.{TypeId};
ghost use Rattle.cx_type_defs.specs.declared.ids.ClassId.{ClassId};
ghost use Rattle.cx_type_defs.specs.declared.kind.TypeRow.{TypeRow};
ghost use Rattle.cx_type_defs.specs.declared.kind.TypeKind.TheVariants as kind;
ghost use Rattle.cx_type_defs.specs.declared.decl.Field.{Field};
ghost use Rattle.cx_type_defs.specs.Tables.{Tables, base_of, field_of};
ghost use Rattle.cx_state.specs.Objects.{Path, Objects};
ghost use Rattle.cx_state.specs.Places.{element, base_row, row_of};
ghost use Rattle.cx_state.specs.Conditions.{class_at};
ghost use Rattle.cx_state.specs.Steps.{to_field, to_base, to_elem, Write, write, release, settle, cut, outer, dynamic_class};
ghost use Rattle.cx_state.specs.Pointers.{add};
ghost use Rattle.cx_state.specs.Counts.{Request, make};
ghost use Rattle.cx_state.specs.Forms.{Knows};

use crate::kind::Birth;

/// Each place keeps its type whatever step is done, a known one also where an object is made, and one in an object that
/// stays where others are cut off.
pub fn types_of_places_stay()
    ensures write { (t : Tables) (os now : Objects) (p q : Path) (w : Write) → write t os p w ≡ Ok now → row_of t now q ≡ row_of t os q }
    ensures release { (t : Tables) (os now : Objects) (p q : Path) → release os p ≡ Ok now → row_of t now q ≡ row_of t os q }
    ensures settle { (t : Tables) (os : Objects) (p q : Path) (b : Birth) → row_of t (settle os p b) q ≡ row_of t os q }
    ensures make { (t : Tables) (limits : Limits) (os now : Objects) (made : Request) (q : Path) → make t limits os made ≡ Ok now → Knows t os q → row_of t now q ≡ row_of t os q }
    ensures cut { (t : Tables) (os : Objects) (mark : ℕ) (q : Path) → q.object < mark → row_of t (cut os mark) q ≡ row_of t os q }
{}

/// At a place of a part is the part's type, at one of the same array the type of its elements, and at an enclosing
/// object the class that was asked for or is told.
pub fn reached_places_have_types()
    ensures field { (t : Tables) (os : Objects) (p q : Path) (i : ℕ) (r : TypeRow) (c : ClassId) (f : Field) → row_of t os p ≡ Some r → r.kind ≡ kind.Class c → field_of t c i ≡ Some f → to_field t os p i ≡ Ok q → row_of t os q ≡ slice_get t.rows f.ty.0 }
    ensures base { (t : Tables) (os : Objects) (p q : Path) (i : ℕ) (r : TypeRow) (c b : ClassId) → row_of t os p ≡ Some r → r.kind ≡ kind.Class c → base_of t c i ≡ Some b → to_base t os p i ≡ Ok q → row_of t os q ≡ Some (base_row b) }
    ensures elem { (t : Tables) (os : Objects) (p q : Path) (i : ℕ) (r : TypeRow) (of : TypeId) (n : ℕ) (e : TypeRow) → row_of t os p ≡ Some r → r.kind ≡ kind.Array of n → slice_get t.rows of.0 ≡ Some e → i ≤ n → to_elem t os p i ≡ Ok q → row_of t os q ≡ Some (element r.konst e) }
    ensures add { (t : Tables) (os : Objects) (p q : Path) (by : ℤ) → Knows t os p → add t os p by ≡ Ok q → row_of t os q ≡ row_of t os p }
    ensures outer { (t : Tables) (os : Objects) (p q : Path) (c : ClassId) → Knows t os p → outer t os p c ≡ Ok q → class_at t os q ≡ Some c }
    ensures dynamic { (t : Tables) (os : Objects) (p q : Path) (c : ClassId) → dynamic_class t os p ≡ Ok (Some (c, q)) → class_at t os q ≡ Some c }
{}

/// Where no rule is broken, the most derived class of a class is found.
pub fn dynamic_class_is_found()
    ensures { (t : Tables) (os : Objects) (p : Path) (c : ClassId) (found : Option (ClassId × Path)) → class_at t os p ≡ Some c → dynamic_class t os p ≡ Ok found → is_some found ≡ true }
{}
