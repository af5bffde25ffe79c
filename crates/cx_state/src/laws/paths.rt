//! What a change at a path does there and at other paths ([intro.object]).

ghost use Rattle.std.specs.Prelude.{◌≡◌, ◌⊎◌, ℕ, Bool, false, List, ◌++◌, length, Some, option_map, option_and_then, slice_get, Decides};
ghost use Rattle.cx_state.specs.Objects.{Path, Tree, Object, Objects, below, changed, at, put, same_step, same_steps, same_path};
ghost use Rattle.cx_state.specs.Elsewhere.{is_front, is_aside, IsAside, within};

use cx_type_defs::Step;

/// Below the same steps stands what the change made of what stood there; below steps that part from them what stood
/// there.
pub fn changed_below()
    ensures here { (f : Tree → Tree) (x : Tree) (ss : List Step) → below (changed f x ss) ss ≡ option_map f (below x ss) }
    ensures twice { (f g : Tree → Tree) (x : Tree) (ss : List Step) → changed g (changed f x ss) ss ≡ changed (λ y. g (f y)) x ss }
    ensures aside { (f : Tree → Tree) (x : Tree) (ss us : List Step) → is_front ss us ≡ false → is_front us ss ≡ false → below (changed f x ss) us ≡ below x us }
    ensures either_first { (f g : Tree → Tree) (x : Tree) (ss us : List Step) → is_front ss us ≡ false → is_front us ss ≡ false → changed g (changed f x ss) us ≡ changed f (changed g x us) ss }
    ensures same { (f g : Tree → Tree) (x : Tree) (ss : List Step) → ((y : Tree) → below x ss ≡ Some y → f y ≡ g y) → changed f x ss ≡ changed g x ss }
    ensures further { (x : Tree) (ss us : List Step) → below x (ss ++ us) ≡ option_and_then (λ y. below y us) (below x ss) }
    ensures further_change { (f : Tree → Tree) (x : Tree) (ss us : List Step) → changed f x (ss ++ us) ≡ changed (λ y. changed f y us) x ss }
{}

/// At the path stands what the change made of what stood there, and the rest of its object's record stays.
pub fn put_is_there()
    ensures here { (f : Tree → Tree) (os : Objects) (p : Path) → at (put f os p) p ≡ option_map f (at os p) }
    ensures record_stays { (f : Tree → Tree) (os : Objects) (p : Path) → slice_get (put f os p) p.object ≡ option_map (λ (o : Object). record o { tree = changed f o.tree p.steps }) (slice_get os p.object) }
    ensures as_many { (f : Tree → Tree) (os : Objects) (p : Path) → length (put f os p) ≡ length os }
{}

/// What lies aside is as it was, and so is each object with another number.
pub fn put_leaves_the_rest()
    ensures aside { (f : Tree → Tree) (os : Objects) (p q : Path) → IsAside p q → at (put f os p) q ≡ at os q }
    ensures other_objects { (f : Tree → Tree) (os : Objects) (p : Path) (i : ℕ) → (i ≡ p.object → ⊥) → slice_get (put f os p) i ≡ slice_get os i }
{}

/// A change that leaves what stands at the path leaves all; two that make the same of it are the same.
pub fn put_looks_at_its_path_alone()
    ensures still { (f : Tree → Tree) (os : Objects) (p : Path) → ((x : Tree) → at os p ≡ Some x → f x ≡ x) → put f os p ≡ os }
    ensures same { (f g : Tree → Tree) (os : Objects) (p : Path) → ((x : Tree) → at os p ≡ Some x → f x ≡ g x) → put f os p ≡ put g os p }
{}

/// Two changes at one path are one; at two paths that lie aside it is no matter which comes first.
pub fn puts_join()
    ensures twice { (f g : Tree → Tree) (os : Objects) (p : Path) → put g (put f os p) p ≡ put (λ x. g (f x)) os p }
    ensures either_first { (f g : Tree → Tree) (os : Objects) (p q : Path) → IsAside p q → put g (put f os p) q ≡ put f (put g os q) p }
{}

/// A path to a part of what a path leads to stands for steps from there.
pub fn paths_go_on()
    ensures found { (os : Objects) (p : Path) (ss : List Step) (past : Bool) → at os (within p ss past) ≡ option_and_then (λ x. below x ss) (at os p) }
    ensures above { (f : Tree → Tree) (os : Objects) (p : Path) (ss : List Step) (past : Bool) → at (put f os (within p ss past)) p ≡ option_map (λ x. changed f x ss) (at os p) }
    ensures changed { (f : Tree → Tree) (os : Objects) (p : Path) (ss : List Step) (past : Bool) → put f os (within p ss past) ≡ put (λ x. changed f x ss) os p }
{}

/// The comparisons are true exactly for equal steps and paths.
pub fn comparisons_tell_equality()
    ensures step { (s u : Step) → Decides (same_step s u) (s ≡ u) }
    ensures steps { (ss us : List Step) → Decides (same_steps ss us) (ss ≡ us) }
    ensures path { (p q : Path) → Decides (same_path p q) (p ≡ q) }
{}

/// Two paths lie aside of each other, or one leads to what the other leads to or to a part of it; never both.
pub fn paths_lie_aside_or_within()
    ensures within { (p q : Path) → is_aside p q ≡ false → (p.object ≡ q.object) × (((ss : List Step) × (q.steps ≡ p.steps ++ ss)) ⊎ ((ss : List Step) × (p.steps ≡ q.steps ++ ss))) }
    ensures not_within { (p : Path) (ss : List Step) (past : Bool) → is_aside p (within p ss past) ≡ false }
    ensures either_way { (p q : Path) → is_aside p q ≡ is_aside q p }
{}
