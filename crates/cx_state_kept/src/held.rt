//! The places that a caller holds while objects are made ([basic.stc], [basic.compound]).

ghost use Rattle.std.specs.Prelude.{◌≡◌, List, map, All};
ghost use Rattle.cx_type_defs.specs.Tables.{Tables};
ghost use Rattle.cx_state.specs.declared.kind.Scalar.{Scalar};
ghost use Rattle.cx_state.specs.Objects.{Path, Objects};
ghost use Rattle.cx_state.specs.Forms.{Knows, KnowsIn};
ghost use Rattle.cx_store.specs.declared.store.RootView.{RootView};
ghost use Rattle.cx_store.specs.Stores.{KeepsPaths, seen, Tells};

/// Where the places of the objects that there were keep their paths, a known place, a scalar that holds one, and each of a
/// list of these is seen as it was: so a whole stack of operands is.
pub fn held_places_keep_their_paths<P>()
    ensures place { (t : Tables) (old : Objects) (before after : P → Path) (p : P) → KeepsPaths old before after → Knows t old (before p) → after p ≡ before p }
    ensures scalar { (t : Tables) (old : Objects) (before after : P → Path) (v : Scalar P) → KeepsPaths old before after → KnowsIn t old (seen before v) → seen after v ≡ seen before v }
    ensures places { (t : Tables) (old : Objects) (before after : P → Path) (ps : List P) → KeepsPaths old before after → All (λ p. Knows t old (before p)) ps → map after ps ≡ map before ps }
    ensures scalars { (t : Tables) (old : Objects) (before after : P → Path) (vs : List (Scalar P)) → KeepsPaths old before after → All (λ v. KnowsIn t old (seen before v)) vs → map (seen after) vs ≡ map (seen before) vs }
{}

/// The whole object that a known place is in has a place that is known.
pub fn whole_places_are_known<P>()
    ensures { (t : Tables) (os : Objects) (path : P → Path) (at : P) (told : RootView P) → Tells os path at told → Knows t os (path at) → Knows t os (path told.place) }
{}
