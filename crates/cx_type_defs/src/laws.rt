//! Laws of the definitions, for what stands above: each is a function whose contract it is.

ghost use Rattle.std.specs.Prelude.{◌≡◌, ℕ, ◌<◌, ◌≤◌, ◌↔◌, Bool, true, false, length, slice_get, option_map, Option, Some, Ok, MatchOption, ℤ};
ghost use Rattle.cx_type_defs.specs.Tables.{Tables, Grows, IsKnown, with_row, with_class, with_enum, with_body, with_end, body_at, base_of, field_of, overrider, under_at, declared_pure};
ghost use Rattle.cx_type_defs.specs.Questions.{Part, OfType, asked, depth_of, cells_of, nodes_of, literal_of, extent_of, part_answer, is_complete, cells_answer};
ghost use Rattle.cx_type_defs.specs.Refusals.{IsIncomplete};
ghost use Rattle.cx_type_defs.specs.Slots.{base_slot};
ghost use Rattle.cx_type_defs.specs.Levels.{most_steps, led_to};
ghost use Rattle.cx_type_defs.specs.Sound.{Sound};
ghost use Rattle.cx_type_defs.specs.Same.{SameType, SameAside};
ghost use Rattle.cx_type_defs.specs.Enums.{Holds, MayEnd, type_values, values_at, holds, field_of_bits, field_bits, field_values};

use crate::decl::{ClassBody, ClassDecl, ClassKey, EnumDecl, EnumEnd, Extent, Field};
use crate::ids::{ClassId, EnumId, FuncId, TypeId};
use crate::kind::{TypeKind, TypeRow};
use cx_base::IntType;

/// Tables grow to themselves, and on and on.
pub fn growth_is_an_order()
    ensures reflexive { (t : Tables) → Grows t t }
    ensures transitive { (t u v : Tables) → Grows t u → Grows u v → Grows t v }
{}

/// What each call does to the tables makes them grow.
pub fn calls_make_grow()
    ensures types { (t : Tables) (row : TypeRow) → Grows t (with_row t row) }
    ensures classes { (t : Tables) (d : ClassDecl) → Grows t (with_class t d) }
    ensures enums { (t : Tables) (d : EnumDecl) → Grows t (with_enum t d) }
    ensures bodies { (t : Tables) (c : ClassId) (b : ClassBody) → IsIncomplete (slice_get t.classes c.0) → Grows t (with_body t c b) }
    ensures ends { (t : Tables) (id : EnumId) (e : EnumEnd) → MayEnd (slice_get t.enums id.0) e.under e.low e.high → Grows t (with_end t id e) }
{}

/// What is known of types, classes and enumerations stays known where the tables grow.
pub fn knowledge_stays()
    ensures row { (t u : Tables) → Grows t u → (i : ℕ) (r : TypeRow) → slice_get t.rows i ≡ Some r → slice_get u.rows i ≡ Some r }
    ensures key { (t u : Tables) → Grows t u → (c : ClassId) (k : ClassKey) → option_map (λ d. d.key) (slice_get t.classes c.0) ≡ Some k → option_map (λ d. d.key) (slice_get u.classes c.0) ≡ Some k }
    ensures body { (t u : Tables) → Grows t u → (c : ClassId) (b : ClassBody) → body_at t c ≡ Some b → body_at u c ≡ Some b }
    ensures base { (t u : Tables) → Grows t u → (c : ClassId) (i : ℕ) (base : ClassId) → base_of t c i ≡ Some base → base_of u c i ≡ Some base }
    ensures field { (t u : Tables) → Grows t u → (c : ClassId) (i : ℕ) (f : Field) → field_of t c i ≡ Some f → field_of u c i ≡ Some f }
    ensures overrider { (t u : Tables) → Grows t u → (c : ClassId) (k : ℕ) (f : FuncId) → overrider t c k ≡ Some f → overrider u c k ≡ Some f }
    ensures base_slot { (t u : Tables) → Grows t u → Sound t → (c : ClassId) (i k n : ℕ) → base_slot t c i k ≡ Some n → base_slot u c i k ≡ Some n }
    ensures under { (t u : Tables) → Grows t u → (id : EnumId) (ty : IntType) → under_at t id ≡ Some ty → under_at u id ≡ Some ty }
    ensures values { (t u : Tables) → Grows t u → (id : EnumId) (v : ℤ × ℤ) → values_at t id ≡ Some v → values_at u id ≡ Some v }
    ensures complete { (t u : Tables) → Grows t u → (id : TypeId) → is_complete t id ≡ true → is_complete u id ≡ true }
    ensures declared { (t u : Tables) → Grows t u → (f : FuncId) → declared_pure t f ≡ true → declared_pure u f ≡ true }
{}

/// What was answered stays answered so where the tables grow.
pub fn answers_stay()
    ensures depth { (t u : Tables) → Grows t u → (p : Part) (n : ℕ) → asked depth_of t p ≡ Some n → asked depth_of u p ≡ Some n }
    ensures cells { (t u : Tables) → Grows t u → (p : Part) (n : ℕ) → asked cells_of t p ≡ Some n → asked cells_of u p ≡ Some n }
    ensures nodes { (t u : Tables) → Grows t u → (p : Part) (n : ℕ) → asked nodes_of t p ≡ Some n → asked nodes_of u p ≡ Some n }
    ensures literal { (t u : Tables) → Grows t u → (p : Part) (b : Bool) → asked literal_of t p ≡ Some b → asked literal_of u p ≡ Some b }
    ensures extent { (t u : Tables) → Grows t u → (p : Part) (e : Option Extent) → asked extent_of t p ≡ Some e → asked extent_of u p ≡ Some e }
{}

/// A question answers a part by its answers for the parts below, and where the depth is known, it does so whatever it
/// answers: the bound on the levels is no matter.
pub fn questions_open()
    ensures depth { (t : Tables) (p : Part) (n : ℕ) → asked depth_of t p ≡ Some n → part_answer depth_of t (asked depth_of t) p ≡ Some n }
    ensures cells { (t : Tables) (p : Part) (n : ℕ) → asked cells_of t p ≡ Some n → part_answer cells_of t (asked cells_of t) p ≡ Some n }
    ensures nodes { (t : Tables) (p : Part) (n : ℕ) → asked nodes_of t p ≡ Some n → part_answer nodes_of t (asked nodes_of t) p ≡ Some n }
    ensures literal { (t : Tables) (p : Part) (b : Bool) → asked literal_of t p ≡ Some b → part_answer literal_of t (asked literal_of t) p ≡ Some b }
    ensures extent { (t : Tables) (p : Part) (e : Option Extent) → asked extent_of t p ≡ Some e → part_answer extent_of t (asked extent_of t) p ≡ Some e }
    ensures cells_known { (t : Tables) (id : TypeId) (n : ℕ) → cells_answer t id ≡ Ok n → (is_complete t id ≡ true) × (asked cells_of t (OfType id) ≡ Some n) }
    ensures cells_or_none { (t : Tables) (p : Part) (d : ℕ) → asked depth_of t p ≡ Some d → asked cells_of t p ≡ part_answer cells_of t (asked cells_of t) p }
    ensures literal_or_none { (t : Tables) (p : Part) (d : ℕ) → asked depth_of t p ≡ Some d → asked literal_of t p ≡ part_answer literal_of t (asked literal_of t) p }
    ensures extent_or_none { (t : Tables) (p : Part) (d : ℕ) → asked depth_of t p ≡ Some d → asked extent_of t p ≡ part_answer extent_of t (asked extent_of t) p }
{}

/// The least and the greatest enumerator of an enumeration whose list has ended are among its values, also where the
/// tables have grown since.
pub fn enumerators_in_range()
    ensures { (t u : Tables) (id : EnumId) (under : IntType) (low high : ℤ) → MayEnd (slice_get t.enums id.0) under low high → Grows (with_end t id (record { under = under; low = low; high = high })) u → MatchOption (values_at u id) ⊥ (λ values. Holds values low high) }
{}

/// An enumeration's values are among those of its underlying type.
pub fn values_of_the_type()
    ensures { (t : Tables) → Sound t → (id : EnumId) (ty : IntType) (v : ℤ × ℤ) → under_at t id ≡ Some ty → values_at t id ≡ Some v → Holds (type_values ty) v.0 v.1 }
{}

/// The bit-field whose values an enumeration has holds both numbers, where one of at most 64 bits does, and none of
/// fewer bits does.
pub fn field_is_smallest()
    ensures fits { (low high : ℤ) (bits : ℕ) → 1 ≤ bits → bits ≤ 64 → holds (field_of_bits low bits) low high ≡ true → holds (field_values low high) low high ≡ true }
    ensures least { (low high : ℤ) (bits : ℕ) → 1 ≤ bits → bits < field_bits low high → holds (field_of_bits low bits) low high ≡ false }
{}

/// A walk along pointers, references and arrays from a type of the tables meets `most_steps` types at most.
pub fn chains_are_short()
    ensures { (t : Tables) → Sound t → (n : ℕ) (id last : TypeId) → id.0 < length t.rows → led_to t n id ≡ Some last → n < most_steps }
{}

/// Being the same type, const aside, is told level by level, and stays where the tables grow.
pub fn const_set_aside()
    ensures reflexive { (t : Tables) (a : TypeKind) → SameAside t a a }
    ensures symmetric { (t : Tables) (a b : TypeKind) → SameAside t a b → SameAside t b a }
    ensures transitive { (t : Tables) (a b c : TypeKind) → SameAside t a b → SameAside t b c → SameAside t a c }
    ensures pointers { (t : Tables) → Sound t → (a b : TypeId) (q r : TypeRow) → slice_get t.rows a.0 ≡ Some q → slice_get t.rows b.0 ≡ Some r → SameAside t (TypeKind.Pointer a) (TypeKind.Pointer b) ↔ SameAside t q.kind r.kind }
    ensures references { (t : Tables) → Sound t → (a b : TypeId) (q r : TypeRow) → slice_get t.rows a.0 ≡ Some q → slice_get t.rows b.0 ≡ Some r → SameAside t (TypeKind.Reference a) (TypeKind.Reference b) ↔ SameAside t q.kind r.kind }
    ensures arrays { (t : Tables) → Sound t → (a b : TypeId) (q r : TypeRow) → slice_get t.rows a.0 ≡ Some q → slice_get t.rows b.0 ≡ Some r → (i j : ℕ) → SameAside t (TypeKind.Array a i) (TypeKind.Array b j) ↔ (SameAside t q.kind r.kind × (i ≡ j)) }
    ensures stays { (t u : Tables) → Sound t → Grows t u → (a b : TypeKind) → IsKnown t a → IsKnown t b → SameAside t a b → SameAside u a b }
{}

/// A type has one number: two types of the tables are the same exactly where their numbers are.
pub fn one_number_a_type()
    ensures { (t : Tables) → Sound t → (a b : TypeId) → a.0 < length t.rows → b.0 < length t.rows → SameType t a b ↔ (a ≡ b) }
{}
