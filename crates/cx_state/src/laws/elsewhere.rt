//! What each step on objects changes, and that it changes nothing else ([basic.life], [class.union], [expr.ass]).

ghost use Rattle.std.specs.Prelude.{◌≡◌, ℕ, suc, ◌<◌, ◌≤◌, Bool, true, false, List, ◌∷◌, length, min, Some, None, Ok, slice_get};
ghost use Rattle.cx_base.specs.declared.limits.Limits.{Limits};
ghost use Rattle.cx_type_defs.specs.Tables.{Tables};
ghost use Rattle.cx_state.specs.Objects.{Path, Tree, Trees, Class, Union, Active, Object, Objects, at};
ghost use Rattle.cx_state.specs.Places.{row_of};
ghost use Rattle.cx_state.specs.Conditions.{is_union, is_here, phase_number};
ghost use Rattle.cx_state.specs.Pointers.{is_dangling};
ghost use Rattle.cx_state.specs.Steps.{Write, written, write, advance, activate, deactivate, release, settle, cut, member_of, member_tree, begun, is_ended, given_up, whole_path};
ghost use Rattle.cx_state.specs.Counts.{Request, new_object, make, next_place};
ghost use Rattle.cx_state.specs.Elsewhere.{within, is_over, Elsewhere, OneObject};

use crate::kind::{Birth, Phase};
use cx_type_defs::Step;

/// A step that writes at a path changes nothing elsewhere: no other object, nothing of this one's record but the tree,
/// and nothing aside of the path.
pub fn steps_stay_at_their_path()
    ensures { (t : Tables) (os : Objects) (p : Path) (w : Write) (new : Objects) → write t os p w ≡ Ok new → Elsewhere os new p }
{}

/// What then stands at the path is what the write makes of what stood there: the value, or the phase of a class with its
/// bases and members as they were, which comes next after the phase before, or a union with another active member.
pub fn writes_are_there()
    ensures written { (t : Tables) (os : Objects) (p : Path) (w : Write) (new : Objects) (x : Tree) → write t os p w ≡ Ok new → at os p ≡ Some x → at new p ≡ Some (written t (row_of t os p) w x) }
    ensures next_phase { (t : Tables) (os : Objects) (p : Path) (to : Phase) (new : Objects) (o : Object) → slice_get os p.object ≡ Some o → advance t os p to ≡ Ok new → (from : Phase) × (bases : Trees) × (members : Trees) × (at os p ≡ Some (Class from bases members)) × (suc (phase_number from) ≡ phase_number to) }
    ensures parts_stay { (t : Tables) (os : Objects) (p : Path) (to : Phase) (new : Objects) (s : Step) (ss : List Step) (past : Bool) → advance t os p to ≡ Ok new → at new (within p (s ∷ ss) past) ≡ at os (within p (s ∷ ss) past) }
{}

/// An activated member is the union's active one and holds a new tree, unless it was active and its lifetime hasn't
/// ended: then nothing at all is changed.
pub fn activation_is_there()
    ensures active { (t : Tables) (os : Objects) (p : Path) (m : ℕ) (alive : Bool) (new : Objects) (x : Tree) → activate t os p m alive ≡ Ok new → at os p ≡ Some x → is_union x ≡ true → member_of (at new p) ≡ Some m }
    ensures new_tree { (t : Tables) (os : Objects) (p : Path) (m : ℕ) (alive : Bool) (new : Objects) (x : Tree) → activate t os p m alive ≡ Ok new → at os p ≡ Some x → is_union x ≡ true → (member_of (Some x) ≡ Some m → ⊥) → at new p ≡ Some (Active m (member_tree t (begun alive) m (row_of t os p))) }
    ensures anew { (t : Tables) (os : Objects) (p : Path) (m : ℕ) (alive : Bool) (new : Objects) (x : Tree) → activate t os p m alive ≡ Ok new → at os p ≡ Some (Active m x) → is_ended x ≡ true → at new p ≡ Some (Active m (member_tree t (begun alive) m (row_of t os p))) }
    ensures again { (t : Tables) (os : Objects) (p : Path) (m : ℕ) (alive : Bool) (new : Objects) (x : Tree) → activate t os p m alive ≡ Ok new → at os p ≡ Some (Active m x) → is_ended x ≡ false → new ≡ os }
{}

/// A union that is deactivated has no active member; one that had none is as it was.
pub fn deactivation_is_there()
    ensures none { (t : Tables) (os : Objects) (p : Path) (new : Objects) (x : Tree) → deactivate t os p ≡ Ok new → at os p ≡ Some x → is_union x ≡ true → at new p ≡ Some Union }
    ensures again { (t : Tables) (os : Objects) (p : Path) (new : Objects) → deactivate t os p ≡ Ok new → at os p ≡ Some Union → new ≡ os }
{}

/// An object that wasn't made in this evaluation is changed by no write.
pub fn objects_from_before_stay()
    ensures { (t : Tables) (os : Objects) (p : Path) (w : Write) (new : Objects) (i : ℕ) (o : Object) → slice_get os i ≡ Some o → is_here o.birth ≡ false → write t os p w ≡ Ok new → slice_get new i ≡ Some o }
{}

/// Giving an object up, and settling its birth, change that one object. In one that is given up nothing has a value,
/// is alive, or is a union's active member.
pub fn one_object_changes()
    ensures release { (os : Objects) (p : Path) (new : Objects) → release os p ≡ Ok new → OneObject given_up os new p.object }
    ensures release_leaves { (os : Objects) (p q : Path) (new : Objects) → release os p ≡ Ok new → (q.object ≡ p.object → ⊥) → at new q ≡ at os q }
    ensures nothing_left { (os : Objects) (p : Path) (new : Objects) (ss : List Step) (y : Tree) → release os p ≡ Ok new → at new (whole_path p ss) ≡ Some y → is_over y ≡ true }
    ensures settle { (os : Objects) (p : Path) (b : Birth) → OneObject (λ (o : Object). record o { birth = b }) os (settle os p b) p.object }
    ensures settle_leaves { (os : Objects) (p q : Path) (b : Birth) → at (settle os p b) q ≡ at os q }
{}

/// A new object comes behind all others, under a number that none of them has, and they stand as they did.
pub fn made_objects_come_last()
    ensures as_many { (t : Tables) (limits : Limits) (os : Objects) (q : Request) (new : Objects) → make t limits os q ≡ Ok new → length new ≡ suc (length os) }
    ensures others { (t : Tables) (limits : Limits) (os : Objects) (q : Request) (new : Objects) (i : ℕ) → make t limits os q ≡ Ok new → i < length os → slice_get new i ≡ slice_get os i }
    ensures made { (t : Tables) (limits : Limits) (os : Objects) (q : Request) (new : Objects) → make t limits os q ≡ Ok new → slice_get new (next_place os).object ≡ Some (new_object t q) }
    ensures tree { (t : Tables) (limits : Limits) (os : Objects) (q : Request) (new : Objects) → make t limits os q ≡ Ok new → at new (next_place os) ≡ Some (new_object t q).tree }
    ensures number { (os : Objects) → slice_get os (next_place os).object ≡ None }
    ensures paths { (t : Tables) (limits : Limits) (os : Objects) (q : Request) (new : Objects) (p : Path) → make t limits os q ≡ Ok new → p.object < length os → at new p ≡ at os p }
{}

/// Exactly the objects below the mark stand after a cut; so a cut at the old number of objects undoes what was made.
pub fn cut_keeps_the_objects_below()
    ensures below { (os : Objects) (mark i : ℕ) → i < mark → slice_get (cut os mark) i ≡ slice_get os i }
    ensures gone { (os : Objects) (mark i : ℕ) → mark ≤ i → slice_get (cut os mark) i ≡ None }
    ensures as_many { (os : Objects) (mark : ℕ) → length (cut os mark) ≡ min mark (length os) }
    ensures paths { (os : Objects) (mark : ℕ) (p : Path) → p.object < mark → at (cut os mark) p ≡ at os p }
    ensures undone { (t : Tables) (limits : Limits) (os : Objects) (q : Request) (new : Objects) → make t limits os q ≡ Ok new → cut new (length os) ≡ os }
{}

/// A released object stays so, whatever step comes, until a cut takes it away.
pub fn released_objects_stay_so()
    ensures released { (os : Objects) (p : Path) (new : Objects) (o : Object) → slice_get os p.object ≡ Some o → release os p ≡ Ok new → is_dangling new p ≡ true }
    ensures written { (before after : Objects) (p q : Path) → Elsewhere before after p → is_dangling before q ≡ true → is_dangling after q ≡ true }
    ensures release { (os : Objects) (p q : Path) (new : Objects) → release os p ≡ Ok new → is_dangling os q ≡ true → is_dangling new q ≡ true }
    ensures settle { (os : Objects) (p q : Path) (b : Birth) → is_dangling os q ≡ true → is_dangling (settle os p b) q ≡ true }
    ensures make { (t : Tables) (limits : Limits) (os : Objects) (r : Request) (new : Objects) (q : Path) → make t limits os r ≡ Ok new → is_dangling os q ≡ true → is_dangling new q ≡ true }
{}
