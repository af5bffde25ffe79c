//! Moving and comparing pointers ([expr.add], [expr.rel], [expr.eq]).

ghost use Rattle.std.specs.Prelude.{◌≡◌, true, false, Ok, ℤ, pos, ◌+ℤ◌, int_lt};
ghost use Rattle.cx_type_defs.specs.Tables.{Tables};
ghost use Rattle.cx_state.specs.Objects.{Path, Objects};
ghost use Rattle.cx_state.specs.Pointers.{is_dangling, add, same_array, distance, less, equal};
ghost use Rattle.cx_state.specs.Forms.{Knows};

/// Each place equals itself, and two places are compared for equality alike in both orders, also where the answer is a
/// rule.
pub fn equality_is_symmetric()
    ensures itself { (t : Tables) (os : Objects) (p : Path) → equal t os p p ≡ Ok true }
    ensures symmetric { (t : Tables) (os : Objects) (p q : Path) → equal t os p q ≡ equal t os q p }
{}

/// No place of a living object is before itself, and where one is before another, that one isn't before it.
pub fn order_is_strict()
    ensures itself { (t : Tables) (os : Objects) (p : Path) → is_dangling os p ≡ false → less t os p p ≡ Ok false }
    ensures one_way { (t : Tables) (os : Objects) (p q : Path) → less t os p q ≡ Ok true → less t os q p ≡ Ok false }
{}

/// A pointer that is moved stays in its array: by 0 it stays where it is, two moves make one by their sum, and the
/// distance back is the number that it was moved by.
pub fn moves_add_up()
    ensures nothing { (t : Tables) (os : Objects) (p : Path) → Knows t os p → is_dangling os p ≡ false → add t os p (pos 0) ≡ Ok p }
    ensures twice { (t : Tables) (os : Objects) (p q : Path) (i j : ℤ) → Knows t os p → add t os p i ≡ Ok q → add t os q j ≡ add t os p (i +ℤ j) }
    ensures array { (t : Tables) (os : Objects) (p q : Path) (i : ℤ) → Knows t os p → add t os p i ≡ Ok q → same_array q p ≡ true }
    ensures back { (t : Tables) (os : Objects) (p q : Path) (i : ℤ) → Knows t os p → add t os p i ≡ Ok q → distance os q p ≡ Ok i }
{}

/// In one array, the distance says how to come from one place to another, the place that a positive number leads to is
/// behind, and places at different indices aren't equal.
pub fn places_of_one_array()
    ensures forth { (t : Tables) (os : Objects) (p q : Path) (i : ℤ) → Knows t os p → Knows t os q → distance os q p ≡ Ok i → add t os p i ≡ Ok q }
    ensures order { (t : Tables) (os : Objects) (p q : Path) (i : ℤ) → Knows t os p → add t os p i ≡ Ok q → less t os p q ≡ Ok (int_lt (pos 0) i) }
    ensures unequal { (t : Tables) (os : Objects) (p q : Path) (i : ℤ) → Knows t os p → add t os p i ≡ Ok q → (i ≡ pos 0 → ⊥) → equal t os p q ≡ Ok false }
{}
