//! How a caller meets what the calls of a store ask ([basic.types.general], [conv.qual], [expr.ass]).

ghost use Rattle.std.specs.Prelude.{◌≡◌, ℕ, ◌*◌, ◌≤◌, true, None, Some, slice_get};
ghost use Rattle.cx_type_defs.specs.Tables.{Tables};
ghost use Rattle.cx_type_defs.specs.Sound.{Sound};
ghost use Rattle.cx_type_defs.specs.Questions.{OfType, asked, cells_of, is_complete};
ghost use Rattle.cx_state.specs.declared.kind.Scalar.{Scalar};
ghost use Rattle.cx_state.specs.Objects.{Path, Objects};
ghost use Rattle.cx_state.specs.Places.{row_of};
ghost use Rattle.cx_state.specs.Alike.{Alike};
ghost use Rattle.cx_state.specs.Forms.{HoldsValue, Designates, MayHold};
ghost use Rattle.cx_store.specs.Stores.{IsWhole, IsScalarAt, MayTake};

use cx_types::{TypeId, TypeKind, TypeRow};

/// An object can be made of each complete type of sound tables, and an array of so many of it where they have at most 2^30
/// cells together.
pub fn complete_types_have_objects()
    ensures one { (t : Tables) (ty : TypeId) → Sound t → is_complete t ty ≡ true → IsWhole t ty None }
    ensures many { (t : Tables) (ty : TypeId) (n cells : ℕ) → is_complete t ty ≡ true → asked cells_of t (OfType ty) ≡ Some cells → n * cells ≤ 1073741824 → IsWhole t ty (Some n) }
{}

/// A place of a scalar type takes what that type holds, and so does a place of a type that is the same, const aside.
pub fn places_take_values()
    ensures scalar { (t : Tables) (os : Objects) (p : Path) (row : TypeRow) (k : TypeKind) → row_of t os p ≡ Some row → Alike t k row.kind → HoldsValue k → IsScalarAt t os p }
    ensures takes { (t : Tables) (os : Objects) (p : Path) (row : TypeRow) (k : TypeKind) (v : Scalar Path) → row_of t os p ≡ Some row → Alike t k row.kind → MayHold t os k v → MayTake t os p v }
{}

/// What a pointer or reference to a scalar type leads to is a scalar, and takes what the type holds.
pub fn pointees_take_values()
    ensures scalar { (t : Tables) (os : Objects) (to : TypeId) (row : TypeRow) (p : Path) → slice_get t.rows to.0 ≡ Some row → HoldsValue row.kind → Designates t os to p → IsScalarAt t os p }
    ensures takes { (t : Tables) (os : Objects) (to : TypeId) (row : TypeRow) (p : Path) (v : Scalar Path) → slice_get t.rows to.0 ≡ Some row → HoldsValue row.kind → Designates t os to p → MayHold t os row.kind v → MayTake t os p v }
{}
