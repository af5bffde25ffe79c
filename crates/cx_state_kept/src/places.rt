//! Known places stay known, and each keeps its type in all tables ([basic.compound], [basic.types]).

ghost use Rattle.std.specs.Prelude.{◌≡◌, ℕ, Ok, Result};
ghost use Rattle.cx_base.specs.declared.rule.Rule.{Rule};
ghost use Rattle.cx_base.specs.declared.limits.Limits.{Limits};
ghost use Rattle.cx_type_defs.specs.Tables.{Tables};
ghost use Rattle.cx_state.specs.Objects.{Path, Tree, Objects, put};
ghost use Rattle.cx_state.specs.Steps.{Write, write, release, settle, cut};
ghost use Rattle.cx_state.specs.Counts.{Request, make};
ghost use Rattle.cx_state.specs.Forms.{MayHold, KnowsIn};
ghost use Rattle.cx_store.specs.Stores.{Changed, IsScalarAt, IsClassAt, IsUnionAt, HasField, HasBase, HasElem, MayTake, StillKnows, StillKnowsBelow};

use cx_state::{Birth, Scalar};
use cx_types::TypeKind;

/// No step loses a known place or changes its type, save that cutting objects off keeps those in the objects that stay.
pub fn steps_keep_places()
    ensures put { (f : Tree → Tree) (os : Objects) (p : Path) → StillKnows os (put f os p) }
    ensures make { (t : Tables) (limits : Limits) (os now : Objects) (q : Request) → make t limits os q ≡ Ok now → StillKnows os now }
    ensures write { (t : Tables) (os now : Objects) (p : Path) (w : Write) → write t os p w ≡ Ok now → StillKnows os now }
    ensures release { (os now : Objects) (p : Path) → release os p ≡ Ok now → StillKnows os now }
    ensures settle { (os : Objects) (p : Path) (b : Birth) → StillKnows os (settle os p b) }
    ensures cut { (os : Objects) (mark : ℕ) → StillKnowsBelow mark os (cut os mark) }
{}

/// What is still known after one step and another is still known after both.
pub fn keeping_goes_on()
    ensures nothing { (os : Objects) → StillKnows os os }
    ensures further { (a b c : Objects) → StillKnows a b → StillKnows b c → StillKnows a c }
{}

/// As long as known places stay known, a scalar may be held where it might be held, what it holds is known, and what was
/// asked of the type at a place stays.
pub fn conditions_stay()
    ensures held { (t : Tables) (old new : Objects) (k : TypeKind) (v : Scalar Path) → StillKnows old new → MayHold t old k v → MayHold t new k v }
    ensures known { (t : Tables) (old new : Objects) (v : Scalar Path) → StillKnows old new → KnowsIn t old v → KnowsIn t new v }
    ensures takes { (t : Tables) (old new : Objects) (p : Path) (v : Scalar Path) → StillKnows old new → MayTake t old p v → MayTake t new p v }
    ensures scalar { (t : Tables) (old new : Objects) (p : Path) → StillKnows old new → IsScalarAt t old p → IsScalarAt t new p }
    ensures class { (t : Tables) (old new : Objects) (p : Path) → StillKnows old new → IsClassAt t old p → IsClassAt t new p }
    ensures union { (t : Tables) (old new : Objects) (p : Path) → StillKnows old new → IsUnionAt t old p → IsUnionAt t new p }
    ensures field { (t : Tables) (old new : Objects) (p : Path) (i : ℕ) → StillKnows old new → HasField t old p i → HasField t new p i }
    ensures base { (t : Tables) (old new : Objects) (p : Path) (i : ℕ) → StillKnows old new → HasBase t old p i → HasBase t new p i }
    ensures elem { (t : Tables) (old new : Objects) (p : Path) (i : ℕ) → StillKnows old new → HasElem t old p i → HasElem t new p i }
{}

/// So where a step is done, or its rule is told and nothing is changed, the places stay.
pub fn done_or_refused()
    ensures { (step : Result Objects Rule) (old new : Objects) (result : Result (Unit {0}) Rule) → ((now : Objects) → step ≡ Ok now → StillKnows old now) → Changed step old new result → StillKnows old new }
{}
