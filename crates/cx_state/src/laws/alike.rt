//! Types that are the same, const at any level aside ([basic.compound], [conv.qual]).

ghost use Rattle.std.specs.Prelude.{◌≡◌, Some, slice_get};
ghost use Rattle.cx_type_defs.specs.Tables.{Tables, Grows};
ghost use Rattle.cx_type_defs.specs.Sound.{Sound};
ghost use Rattle.cx_state.specs.declared.kind.Scalar.{Scalar};
ghost use Rattle.cx_state.specs.Objects.{Path, Objects};
ghost use Rattle.cx_state.specs.Alike.{IsSimple, Alike};
ghost use Rattle.cx_state.specs.Forms.{HoldsValue, IsPointee, MayHold};

use cx_type_defs::{TypeId, TypeKind, TypeRow};

/// Each type of sound tables is the same as itself, whatever it is made of. Of two types that are the same either is the
/// same as the other, and where that is the same as a third, so is the first.
pub fn sameness_is_an_equivalence()
    ensures itself { (t : Tables) (id : TypeId) (row : TypeRow) → Sound t → slice_get t.rows id.0 ≡ Some row → Alike t row.kind row.kind }
    ensures symmetric { (t : Tables) (a b : TypeKind) → Alike t a b → Alike t b a }
    ensures transitive { (t : Tables) (a b c : TypeKind) → Alike t a b → Alike t b c → Alike t a c }
    ensures alone { (t : Tables) (a b : TypeKind) → IsSimple a → Alike t a b → b ≡ a }
    ensures grown { (t u : Tables) (a b : TypeKind) → Grows t u → Alike t a b → Alike u a b }
{}

/// Types that are the same hold the same values, and pointers to them designate the same places.
pub fn same_types_hold_the_same()
    ensures scalar { (t : Tables) (a b : TypeKind) → Alike t a b → HoldsValue a → HoldsValue b }
    ensures value { (t : Tables) (os : Objects) (a b : TypeKind) (v : Scalar Path) → Alike t a b → MayHold t os a v → MayHold t os b v }
    ensures pointee { (t : Tables) (a b k : TypeKind) → Alike t a b → IsPointee t a k → IsPointee t b k }
{}
