//! Types that come later change no answer: where the tables grow, objects keep their forms, places their types, and each
//! step answers as before ([basic.types.general], [class.mem]).

ghost use Rattle.std.specs.Prelude.{◌≡◌, ℕ, true, Some, ℤ};
ghost use Rattle.cx_type_defs.specs.Tables.{Tables, Grows};
ghost use Rattle.cx_type_defs.specs.Questions.{is_complete};
ghost use Rattle.cx_state.specs.declared.kind.Scalar.{Scalar};
ghost use Rattle.cx_state.specs.Objects.{Path, Objects};
ghost use Rattle.cx_state.specs.Places.{row_of};
ghost use Rattle.cx_state.specs.Conditions.{Access, broken};
ghost use Rattle.cx_state.specs.Pointers.{add, less, equal};
ghost use Rattle.cx_state.specs.Steps.{to_field, to_base, to_elem, load, active, call_on, outer, dynamic_class, Write, write};
ghost use Rattle.cx_state.specs.Counts.{Request, live_cells, make};
ghost use Rattle.cx_state.specs.Forms.{MayHold, Fit, Knows};
ghost use Rattle.cx_state.specs.Asked.{NamesMember};

use cx_base::Limits;
use cx_type_defs::{ClassId, TypeKind, TypeRow};

/// Objects that have the forms of their types have them in the grown tables; a known place stays known and keeps its
/// type, which may hold what it might hold before.
pub fn growth_keeps_forms()
    ensures fits { (t u : Tables) → Grows t u → (os : Objects) → Fit t os → Fit u os }
    ensures place { (t u : Tables) → Grows t u → (os : Objects) (p : Path) (row : TypeRow) → row_of t os p ≡ Some row → row_of u os p ≡ Some row }
    ensures known { (t u : Tables) → Grows t u → (os : Objects) (p : Path) → Knows t os p → Knows u os p }
    ensures held { (t u : Tables) → Grows t u → (os : Objects) (k : TypeKind) (v : Scalar Path) → MayHold t os k v → MayHold u os k v }
{}

/// At a known place of objects that fit, an access breaks the same rule.
pub fn growth_keeps_rules()
    ensures broken { (t u : Tables) → Grows t u → (os : Objects) → Fit t os → (p : Path) → Knows t os p → (a : Access) → broken u os p a ≡ broken t os p a }
{}

/// Steps to parts and enclosing objects lead to the same places, and what is read is the same.
pub fn growth_keeps_reads()
    ensures field { (t u : Tables) → Grows t u → (os : Objects) → Fit t os → (p : Path) → Knows t os p → (i : ℕ) → to_field u os p i ≡ to_field t os p i }
    ensures base { (t u : Tables) → Grows t u → (os : Objects) → Fit t os → (p : Path) → Knows t os p → (i : ℕ) → to_base u os p i ≡ to_base t os p i }
    ensures elem { (t u : Tables) → Grows t u → (os : Objects) → Fit t os → (p : Path) → Knows t os p → (i : ℕ) → to_elem u os p i ≡ to_elem t os p i }
    ensures outer { (t u : Tables) → Grows t u → (os : Objects) → Fit t os → (p : Path) → Knows t os p → (c : ClassId) → outer u os p c ≡ outer t os p c }
    ensures dynamic { (t u : Tables) → Grows t u → (os : Objects) → Fit t os → (p : Path) → Knows t os p → dynamic_class u os p ≡ dynamic_class t os p }
    ensures load { (t u : Tables) → Grows t u → (os : Objects) → Fit t os → (p : Path) → Knows t os p → load u os p ≡ load t os p }
    ensures active { (t u : Tables) → Grows t u → (os : Objects) → Fit t os → (p : Path) → Knows t os p → active u os p ≡ active t os p }
    ensures call { (t u : Tables) → Grows t u → (os : Objects) → Fit t os → (p : Path) → Knows t os p → call_on u os p ≡ call_on t os p }
{}

/// What is written is the same; a member that is activated is one of the class's.
pub fn growth_keeps_writes()
    ensures { (t u : Tables) → Grows t u → (os : Objects) → Fit t os → (p : Path) → Knows t os p → (w : Write) → NamesMember t os p w → write u os p w ≡ write t os p w }
{}

/// Pointers to known places are moved and compared the same.
pub fn growth_keeps_pointers()
    ensures add { (t u : Tables) → Grows t u → (os : Objects) (p : Path) → Knows t os p → (by : ℤ) → add u os p by ≡ add t os p by }
    ensures less { (t u : Tables) → Grows t u → (os : Objects) (p q : Path) → Knows t os p → less u os p q ≡ less t os p q }
    ensures equal { (t u : Tables) → Grows t u → (os : Objects) (p q : Path) → Knows t os p → equal u os p q ≡ equal t os p q }
{}

/// As many cells are live, and one more object of a complete type is made alike, or refused by the same rule.
pub fn growth_keeps_counts()
    ensures live { (t u : Tables) → Grows t u → (os : Objects) → Fit t os → live_cells u os ≡ live_cells t os }
    ensures make { (t u : Tables) → Grows t u → (limits : Limits) (os : Objects) → Fit t os → (q : Request) → is_complete t q.ty ≡ true → make u limits os q ≡ make t limits os q }
{}
