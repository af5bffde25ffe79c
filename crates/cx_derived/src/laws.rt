//! Laws of the ways to a base: each is a function whose contract it is.

ghost use Rattle.std.specs.Prelude.{◌≡◌, ℕ, ◌≤◌, List, Some, IsSome};
ghost use Rattle.cx_type_defs.specs.Tables.{Tables, Grows, body_at};
ghost use Rattle.cx_type_defs.specs.Sound.{Sound};
ghost use Rattle.cx_derived.specs.Ways.{led, ways_to};

use cx_type_defs::ClassId;

/// The number of ways is that of the steps that lead to the base: where it is 0 none do, and where it is 1 no others do.
pub fn ways_are_steps()
    ensures none { (t : Tables) → Sound t → (c base : ClassId) → ways_to t c base ≡ 0 → (steps : List ℕ) → led t c steps ≡ Some base → ⊥ }
    ensures one { (t : Tables) → Sound t → (c base : ClassId) → ways_to t c base ≤ 1 → (r s : List ℕ) → led t c r ≡ Some base → led t c s ≡ Some base → r ≡ s }
{}

/// The ways from a complete class stay where the tables grow.
pub fn ways_stay()
    ensures { (t u : Tables) → Sound t → Grows t u → (c base : ClassId) → IsSome (body_at t c) → ways_to u c base ≡ ways_to t c base }
{}
