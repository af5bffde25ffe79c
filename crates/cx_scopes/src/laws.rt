//! Laws of the definitions, for what stands above: each is a function whose contract it is.
ghost use Rattle.std.specs.Prelude.{◌≡◌, ◌≢◌, ◌⊎◌, ◌<◌, ◌≤◌, ℕ, List, [], ◌∷◌, ◌++◌, length, slice_get, Ok, None, Some, true};
ghost use Rattle.cx_type_defs.specs.Tables.{Tables};
ghost use Rattle.cx_type_defs.specs.Levels.{most_steps};
ghost use Rattle.cx_type_defs.specs.Sound.{Sound};
ghost use Rattle.cx_scopes.specs.Arguments.{NamesKnown, by_args_answer, class_space, class_spaces, type_spaces};
ghost use Rattle.cx_scopes.specs.Scopes.{ScopeTables, global, no_scopes, place_of};
ghost use Rattle.cx_scopes.specs.Steps.{declared, declared_in_space, entered_with, space_entered_by, left, present_meanings};
ghost use Rattle.cx_scopes.specs.Growth.{Grows, IsKept};
ghost use Rattle.cx_scopes.specs.Lookup.{answer_of, find_answer, find_as_answer, find_in_as_answer, levels_of, members, said_by};
ghost use Rattle.cx_scopes.specs.Nested.{IsNested, KeepsBases};
ghost use Rattle.cx_scopes.specs.Candidates.{united};
ghost use Rattle.cx_scopes.specs.Counts.{Counts, Has, HasFound, HasMore, NamesWhatIs};
ghost use Rattle.cx_scopes.specs.Reaching.{Among, Comes, ComesTo, LeadsTo, Reaches, ReachesThrough, SayNothing, named_spaces, own_members, through};
ghost use Rattle.cx_scopes.specs.declared.entered.Entered.{Entered};
ghost use Rattle.cx_scopes.specs.Names.{is_among};

use crate::kinds::{Entity, ScopeId, ScopeKind, Sought};
use cx_type_defs::{ClassId, TypeId, TypeRow};

/// What names mean in namespaces, classes and enumerations stays, with more behind it, and what is kept of classes,
/// enumerations and types stays: where a name is declared, and where a scope is entered or left.
pub fn declarations_stay()
    ensures reflexive { (s : ScopeTables) → Grows s s }
    ensures transitive { (s u v : ScopeTables) → Grows s u → Grows u v → Grows s v }
    ensures declare { (s u : ScopeTables) (name : List ℕ) (e : Entity) → declared s name e ≡ Ok u → Grows s u }
    ensures declare_in_space { (s u : ScopeTables) (name : List ℕ) (e : Entity) → declared_in_space s name e ≡ Ok u → Grows s u }
    ensures enter { (s u : ScopeTables) (k : ScopeKind) → entered_with s k ≡ Ok u → Grows s u }
    ensures enter_known_space { (s : ScopeTables) (name : List ℕ) (n : ℕ) → Grows s (space_entered_by s name n) }
    ensures leave { (s : ScopeTables) → Grows s (left s) }
{}

/// What was declared in the present scope is among its meanings, and an unqualified look-up gives these.
pub fn declared_names_are_found()
    ensures among { (s u : ScopeTables) (name : List ℕ) (e : Entity) → declared s name e ≡ Ok u → is_among e (present_meanings u name) ≡ true }
    ensures found { (s u : ScopeTables) (name : List ℕ) (e : Entity) → declared s name e ≡ Ok u → IsKept u (place_of u.entered) → find_answer u name ≡ Ok (present_meanings u name) }
{}

/// The scopes that are entered are of their kinds, whatever is done: a namespace is the innermost one within it, a
/// class is kept with its bases, an enumeration is kept, and a function's or block's scope is neither. So a class that
/// is the present scope is kept.
pub fn scopes_stay_nested()
    ensures none { IsNested no_scopes }
    ensures declare { (s u : ScopeTables) (name : List ℕ) (e : Entity) → IsNested s → declared s name e ≡ Ok u → IsNested u }
    ensures declare_in_space { (s u : ScopeTables) (name : List ℕ) (e : Entity) → IsNested s → declared_in_space s name e ≡ Ok u → IsNested u }
    ensures enter { (p : Counts) (s u : ScopeTables) (k : ScopeKind) → IsNested s → NamesWhatIs p s → KeepsBases s k → entered_with s k ≡ Ok u → IsNested u }
    ensures enter_known_space { (s : ScopeTables) (name : List ℕ) (n : ℕ) → IsNested s → n < s.spaces → IsNested (space_entered_by s name n) }
    ensures leave { (s : ScopeTables) → IsNested s → IsNested (left s) }
    ensures kept { (s : ScopeTables) → IsNested s → IsKept s (place_of s.entered) }
{}

/// The scopes name what the program has, whatever is done and however the program grows; and what a lookup gives, the
/// program has.
pub fn scopes_name_what_is()
    ensures none { (p : Counts) → NamesWhatIs p no_scopes }
    ensures same { (p : Counts) → HasMore p p }
    ensures more { (p q : Counts) (s : ScopeTables) → HasMore p q → NamesWhatIs p s → NamesWhatIs q s }
    ensures declare { (p : Counts) (s u : ScopeTables) (name : List ℕ) (e : Entity) → Has p s.spaces e → NamesWhatIs p s → declared s name e ≡ Ok u → NamesWhatIs p u }
    ensures declare_in_space { (p : Counts) (s u : ScopeTables) (name : List ℕ) (e : Entity) → Has p s.spaces e → NamesWhatIs p s → declared_in_space s name e ≡ Ok u → NamesWhatIs p u }
    ensures enter { (p : Counts) (s u : ScopeTables) (k : ScopeKind) → NamesWhatIs p s → entered_with s k ≡ Ok u → NamesWhatIs p u }
    ensures enter_known_space { (p : Counts) (s : ScopeTables) (name : List ℕ) (n : ℕ) → NamesWhatIs p s → NamesWhatIs p (space_entered_by s name n) }
    ensures leave { (p : Counts) (s : ScopeTables) → NamesWhatIs p s → NamesWhatIs p (left s) }
    ensures find { (p : Counts) (s : ScopeTables) (sought : Sought) (name : List ℕ) → NamesWhatIs p s → HasFound p s.spaces (find_as_answer s sought name) }
    ensures find_in { (p : Counts) (s : ScopeTables) (sought : Sought) (q : ScopeId) (name : List ℕ) → NamesWhatIs p s → HasFound p s.spaces (find_in_as_answer s sought q name) }
    ensures find_by_args { (p : Counts) (s : ScopeTables) (t : Tables) (name : List ℕ) (args : List TypeId) → NamesWhatIs p s → HasFound p s.spaces (by_args_answer s t name args) }
    ensures known { (p : Counts) (s : ScopeTables) (t : Tables) → NamesWhatIs p s → p.types ≤ length t.rows → NamesKnown s t }
{}

/// An unqualified lookup answers by the innermost scope that says something, and by the global namespace where none of
/// those that are entered does. What a class says, one class declares to which it comes by bases, itself the first,
/// hidden by none on the way; and each other one to which it so comes declares the same or nothing. The namespaces of a
/// class are those around the classes that it reaches by bases, itself the first, and no others; and those of a type
/// are those of what a chain of pointers and arrays leads to.
pub fn lookups_in_other_words()
    ensures innermost { (s : ScopeTables) (sought : Sought) (name : List ℕ) (inner : List Entered) (x : Entered) (outer : List Entered) → s.entered ≡ inner ++ x ∷ outer → SayNothing s sought name inner → said_by s sought x.scope x name ≢ Some [] → find_as_answer s sought name ≡ answer_of (said_by s sought x.scope x name) }
    ensures global { (s : ScopeTables) (sought : Sought) (name : List ℕ) → SayNothing s sought name s.entered → find_as_answer s sought name ≡ find_in_as_answer s sought global name }
    ensures member { (s : ScopeTables) (sought : Sought) (levels : ℕ) (c : ClassId) (name : List ℕ) (e : Entity) (es : List Entity) → members s sought levels c name ≡ Some (e ∷ es) → ComesTo s sought name c (e ∷ es) }
    ensures members_agree { (s : ScopeTables) (sought : Sought) (levels : ℕ) (c : ClassId) (name : List ℕ) (es : List Entity) (path : List ClassId) (d : ClassId) → members s sought levels c name ≡ Some es → length path < levels → ReachesThrough s sought name c path d → own_members s sought name d ≢ [] → es ≡ own_members s sought name d }
    ensures class_spaces_reached { (s : ScopeTables) (t : Tables) (levels : ℕ) (c : ClassId) (n : ℕ) → Among n (class_spaces s t levels c) → Comes s t c n }
    ensures reached_spaces { (s : ScopeTables) (t : Tables) (c : ClassId) (path : List ClassId) (d : ClassId) (n : ℕ) → Reaches s c path d → class_space s t d ≡ Some n → Among n (class_spaces s t (levels_of s) c) }
    ensures type_spaces { (s : ScopeTables) (t : Tables) (steps : ℕ) (id last : TypeId) (r : TypeRow) → Sound t → id.0 < length t.rows → LeadsTo t steps id last → slice_get t.rows last.0 ≡ Some r → through r.kind ≡ None → type_spaces s t most_steps id ≡ named_spaces s t r.kind }
{}

/// The candidates that two lookups give together are those of the first and of the second, in order, each once where
/// the first gave each once.
pub fn candidates_are_a_set()
    ensures first { (es fs : List Entity) (f : Entity) → Among f es → Among f (united es fs) }
    ensures from { (es fs : List Entity) (f : Entity) → Among f (united es fs) → Among f es ⊎ Among f fs }
    ensures once { (es fs : List Entity) → united [] es ≡ es → united [] (united es fs) ≡ united es fs }
{}
