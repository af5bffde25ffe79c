//! Objects keep the forms of their types ([basic.types.general], [basic.life]).

ghost use Rattle.std.specs.Prelude.{◌≡◌, ℕ, ◌<◌, Bool, true, [], Option, None, Some, Ok, slice_get, length};
ghost use Rattle.cx_type_defs.specs.declared.kind.TypeKind.TheVariants as kind;
ghost use Rattle.cx_type_defs.specs.Tables.{Tables, field_of};
ghost use Rattle.cx_type_defs.specs.Questions.{OfType, asked, is_complete};
ghost use Rattle.cx_state.specs.declared.kind.Scalar.{Scalar};
ghost use Rattle.cx_state.specs.Objects.{Path, Tree, Leaf, Object, Objects, at};
ghost use Rattle.cx_state.specs.Places.{whole_kind, row_of};
ghost use Rattle.cx_state.specs.Conditions.{Access, is_touching, broken};
ghost use Rattle.cx_state.specs.Steps.{new_in, new_tree, ended, load, active, Write, write, release, settle, cut};
ghost use Rattle.cx_state.specs.Counts.{Request, whole_tree, ended_tree, make};
ghost use Rattle.cx_state.specs.Forms.{HoldsValue, HoldsBelow, MayHold, Form, TreeFits, ObjectFits, Fit};
ghost use Rattle.cx_state.specs.Asked.{GivesValue, NamesMember};

use crate::kind::{Birth, Phase};
use cx_base::Limits;
use cx_type_defs::{ClassId, Field, TypeId, TypeRow};

/// A complete type has a new tree in each phase. That tree, and an array of so many of it, has the form of its type,
/// and so has each part of it.
pub fn new_trees_fit()
    ensures there { (t : Tables) (p : Phase) (ty : TypeId) → is_complete t ty ≡ true → asked (new_in p) t (OfType ty) ≡ Some (new_tree t p ty) }
    ensures fits { (t : Tables) (os : Objects) (p : Phase) (count : Option ℕ) (ty : TypeId) (row : TypeRow) (x : Tree) (konst : Bool) → slice_get t.rows ty.0 ≡ Some row → asked (new_in p) t (OfType ty) ≡ Some x → TreeFits t os (record { kind = whole_kind count ty row.kind; konst = konst }) (whole_tree count x) }
{}

/// What an object holds when it is released is told by its type and count alone, whatever it held before.
pub fn released_by_type()
    ensures ended { (t : Tables) (os : Objects) (o : Object) → ObjectFits t os o → ended o.tree ≡ ended_tree t o }
{}

/// No objects have the forms of their types in every table, and one more object of a complete type keeps this.
pub fn making_keeps_forms()
    ensures none { (t : Tables) → Fit t [] }
    ensures make { (t : Tables) (limits : Limits) (os ns : Objects) (q : Request) → Fit t os → is_complete t q.ty ≡ true → make t limits os q ≡ Ok ns → Fit t ns }
{}

/// A write keeps the forms, where the place may hold the value that is given, and the class there has the member that is
/// activated.
pub fn writing_keeps_forms()
    ensures { (t : Tables) (os ns : Objects) (p : Path) (w : Write) → Fit t os → GivesValue t os p w → NamesMember t os p w → write t os p w ≡ Ok ns → Fit t ns }
{}

/// Releasing an object and settling its birth keep the forms, and so does cutting objects off, where none that stays
/// holds a place in one that goes.
pub fn steps_of_objects_keep_forms()
    ensures release { (t : Tables) (os ns : Objects) (p : Path) → Fit t os → release os p ≡ Ok ns → Fit t ns }
    ensures settle { (t : Tables) (os : Objects) (p : Path) (b : Birth) → Fit t os → Fit t (settle os p b) }
    ensures cut { (t : Tables) (os : Objects) (mark : ℕ) → Fit t os → HoldsBelow os mark → Fit t (cut os mark) }
{}

/// What is loaded from a known place stands there, where it is a scalar or reference, and its type may hold it.
pub fn loads_fit()
    ensures held { (t : Tables) (os : Objects) (p : Path) (row : TypeRow) (v : Scalar Path) → Fit t os → row_of t os p ≡ Some row → load t os p ≡ Ok v → MayHold t os row.kind v }
    ensures there { (t : Tables) (os : Objects) (p : Path) (row : TypeRow) (v : Scalar Path) → Fit t os → row_of t os p ≡ Some row → HoldsValue row.kind → load t os p ≡ Ok v → at os p ≡ Some (Leaf v) }
{}

/// What an access reads or changes at a known place is there, in the form of its type, where it breaks no rule.
pub fn touched_parts_are_there()
    ensures there { (t : Tables) (os : Objects) (p : Path) (row : TypeRow) (a : Access) → Fit t os → row_of t os p ≡ Some row → is_touching a ≡ true → broken t os p a ≡ None → (x : Tree) × (at os p ≡ Some x) × Form t os row.kind x }
{}

/// Where a known place designates a class or an array, the types of the class's members and of the array's elements are
/// complete, and a complete type is one of the tables'.
pub fn parts_are_complete()
    ensures member { (t : Tables) (os : Objects) (p : Path) (row : TypeRow) (c : ClassId) (m : ℕ) (f : Field) → Fit t os → row_of t os p ≡ Some row → row.kind ≡ kind.Class c → field_of t c m ≡ Some f → is_complete t f.ty ≡ true }
    ensures element { (t : Tables) (os : Objects) (p : Path) (row : TypeRow) (to : TypeId) (n : ℕ) → Fit t os → row_of t os p ≡ Some row → row.kind ≡ kind.Array to n → is_complete t to ≡ true }
    ensures known { (t : Tables) (ty : TypeId) → is_complete t ty ≡ true → ty.0 < length t.rows }
{}

/// The active member that is told is a member of the union's class.
pub fn active_members_are_members()
    ensures listed { (t : Tables) (os : Objects) (p : Path) (row : TypeRow) (m : ℕ) → Fit t os → row_of t os p ≡ Some row → active t os p ≡ Ok (Some m) → (c : ClassId) × (f : Field) × (row.kind ≡ kind.Class c) × (field_of t c m ≡ Some f) }
{}
