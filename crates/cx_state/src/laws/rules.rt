//! Which rule is told where an access breaks several ([expr.const]).

ghost use Rattle.std.specs.Prelude.{◌≡◌, Bool, true, false, List, Some, None, All, slice_get};
ghost use Rattle.std.specs.List.{list_any};
ghost use Rattle.cx_base.specs.declared.rule.Rule.TheVariants as rule;
ghost use Rattle.cx_type_defs.specs.Tables.{Tables};
ghost use Rattle.cx_state.specs.Objects.{Path, Tree, Object, Objects};
ghost use Rattle.cx_state.specs.Conditions.{Access, order, is_opaque, on_way, sealed, holds, broken};
ghost use Rattle.cx_state.specs.Pointers.{is_dangling};
ghost use Rattle.cx_state.specs.Ways.{OnWay, SealedOnWay};
ghost use Rattle.cx_state.specs.FirstRule.{IsFirst};

use cx_base::Rule;
use cx_type_defs::{Step, TypeRow};

/// The rule that is told is the first of the access's order that holds, and such a rule is told.
pub fn first_rule_is_told()
    ensures only_first { (t : Tables) (os : Objects) (p : Path) (access : Access) (r : Rule) → broken t os p access ≡ Some r → (o : Object) × (slice_get os p.object ≡ Some o) × IsFirst t o p access r }
    ensures first { (t : Tables) (os : Objects) (p : Path) (access : Access) (r : Rule) (o : Object) → slice_get os p.object ≡ Some o → IsFirst t o p access r → broken t os p access ≡ Some r }
    ensures at_most_one { (t : Tables) (o : Object) (p : Path) (access : Access) (q r : Rule) → IsFirst t o p access q → IsFirst t o p access r → q ≡ r }
{}

/// No rule is told exactly where none of the access's order holds for the object, if there is such an object.
pub fn no_rule_is_told()
    ensures none_holds { (t : Tables) (os : Objects) (p : Path) (access : Access) → broken t os p access ≡ None → (o : Object) → slice_get os p.object ≡ Some o → All (λ q. holds t o p access q ≡ false) (order access) }
    ensures none_told { (t : Tables) (os : Objects) (p : Path) (access : Access) → ((o : Object) → slice_get os p.object ≡ Some o → All (λ q. holds t o p access q ≡ false) (order access)) → broken t os p access ≡ None }
{}

/// An object that has an address alone tells nothing of active members and lifetimes.
pub fn opaque_objects_tell_no_state()
    ensures member { (t : Tables) (o : Object) (p : Path) (access : Access) → is_opaque o.birth ≡ true → holds t o p access rule.InactiveMember ≡ false }
    ensures lifetime { (t : Tables) (o : Object) (p : Path) (access : Access) → is_opaque o.birth ≡ true → holds t o p access rule.OutOfLifetime ≡ false }
    ensures never_member { (t : Tables) (os : Objects) (p : Path) (access : Access) (o : Object) → slice_get os p.object ≡ Some o → is_opaque o.birth ≡ true → broken t os p access ≡ Some rule.InactiveMember → ⊥ }
    ensures never_lifetime { (t : Tables) (os : Objects) (p : Path) (access : Access) (o : Object) → slice_get os p.object ≡ Some o → is_opaque o.birth ≡ true → broken t os p access ≡ Some rule.OutOfLifetime → ⊥ }
{}

/// Each access of a released object is dangling, whatever else it breaks.
pub fn released_objects_dangle()
    ensures { (t : Tables) (os : Objects) (p : Path) (access : Access) → is_dangling os p ≡ true → broken t os p access ≡ Some rule.Dangling }
{}

/// A condition on the way to a place holds exactly where some front of the steps leads to a part for which it does.
pub fn ways_are_fronts()
    ensures on_way { (test : Tree × Step → Bool) (x : Tree) (ss : List Step) → list_any test (on_way x ss) ≡ true → OnWay test x ss }
    ensures so_on_way { (test : Tree × Step → Bool) (x : Tree) (ss : List Step) → OnWay test x ss → list_any test (on_way x ss) ≡ true }
    ensures sealed { (t : Tables) (r : TypeRow) (x : Tree) (ss : List Step) → sealed t r x ss ≡ true → SealedOnWay t r x ss }
    ensures so_sealed { (t : Tables) (r : TypeRow) (x : Tree) (ss : List Step) → SealedOnWay t r x ss → sealed t r x ss ≡ true }
{}
