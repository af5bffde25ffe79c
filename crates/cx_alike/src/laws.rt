ghost use Rattle.std.specs.Prelude.{◌↔◌};
ghost use Rattle.cx_type_defs.specs.Tables.{Tables, IsKnown};
ghost use Rattle.cx_type_defs.specs.Sound.{Sound};
ghost use Rattle.cx_type_defs.specs.Same.{SameAside};
ghost use Rattle.cx_state.specs.Alike.{Alike};

use cx_type_defs::TypeKind;

/// What is said of two types from top to bottom, const aside, is the same exactly where they are the same written out
/// without const.
pub fn alike_is_same_aside()
    ensures alike { (t : Tables) → Sound t → (a b : TypeKind) → IsKnown t a → IsKnown t b → SameAside t a b → Alike t a b }
    ensures aside { (t : Tables) → Sound t → (a b : TypeKind) → Alike t a b → SameAside t a b }
{}
