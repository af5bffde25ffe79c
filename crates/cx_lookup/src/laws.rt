//! Laws of the definitions: each is a function whose contract it is.

ghost use Rattle.std.specs.Prelude.{◌≡◌, ◌≢◌, ◌↔◌, Bool, true, false, ◌==◌, List, [], Some};
ghost use Rattle.cx_type_defs.specs.declared.ids.ClassId.{ClassId};
ghost use Rattle.cx_type_defs.specs.declared.ids.FuncId.{FuncId};
ghost use Rattle.cx_type_defs.specs.Same.{Form};
ghost use Rattle.cx_type_defs.specs.Tables.{Tables};
ghost use Rattle.cx_lookup.specs.Ranks.{Argument, World, derived};
ghost use Rattle.cx_lookup.specs.Better.{Converted, better};
ghost use Rattle.cx_lookup.specs.Choice.{Conversions, Signature, Viable, IsBest, Chosen, NoMatch, Ambiguous, HaveTheSame, AreApart, is_better, best_of, choice_of, choice, viable, walked};

/// No conversion is better than itself, and no function; of two functions one at most is better than the other.
pub fn better_is_strict()
    ensures conversions { (t : Tables) (from : Form) (c : Converted) → better (derived t) from c c ≡ false }
    ensures functions { (d : ClassId → ClassId → Bool) (args : List Argument) (cs : Conversions) → is_better d args cs cs ≡ false }
    ensures one_way { (d : ClassId → ClassId → Bool) (args : List Argument) (cs es : Conversions) → is_better d args cs es ≡ true → is_better d args es cs ≡ false }
{}

/// At most one function is the best.
pub fn one_is_best()
    ensures { (d : ClassId → ClassId → Bool) (args : List Argument) (vs : List Viable) (v w : Viable) → IsBest d args vs v → IsBest d args vs w → (v.id.0 == w.id.0) ≡ true }
{}

/// A call chooses the best viable function; there is no match exactly where none is viable, and the call is ambiguous
/// exactly where some are viable and none is the best. The order of the candidates doesn't matter.
pub fn the_best_is_chosen()
    ensures found { (d : ClassId → ClassId → Bool) (args : List Argument) (vs : List Viable) (v : Viable) → best_of d args vs ≡ Some v → IsBest d args vs v }
    ensures chosen { (d : ClassId → ClassId → Bool) (args : List Argument) (vs : List Viable) (v : Viable) → IsBest d args vs v → choice_of d args vs ≡ Chosen v.id }
    ensures is_best { (w : World) (ss : List Signature) (args : List Argument) (f : FuncId) → choice w ss args ≡ Chosen f → (v : Viable) × IsBest (derived w.types) args (viable w args ss) v × (v.id ≡ f) }
    ensures no_match { (w : World) (ss : List Signature) (args : List Argument) → (choice w ss args ≡ NoMatch) ↔ (viable w args ss ≡ []) }
    ensures ambiguous { (w : World) (ss : List Signature) (args : List Argument) → (choice w ss args ≡ Ambiguous) ↔ ((viable w args ss ≢ []) × ((v : Viable) → IsBest (derived w.types) args (viable w args ss) v → ⊥)) }
    ensures order { (w : World) (ss others : List Signature) (args : List Argument) → HaveTheSame ss others → choice w ss args ≡ choice w others args }
{}

/// A walk finds the best viable function: it keeps one, goes to the next where it isn't better than that, and tests the
/// last one kept against all.
pub fn a_walk_finds_the_best()
    ensures { (d : ClassId → ClassId → Bool) (args : List Argument) (vs : List Viable) → AreApart vs → walked d args vs ≡ best_of d args vs }
{}
