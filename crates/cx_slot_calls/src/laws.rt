//! Laws of what stands at a place, for what stands above: each is a function whose contract it is.

ghost use Rattle.std.specs.Prelude.{◌≡◌, true, false, Some, slice_get};
ghost use Rattle.std.specs.List.{list_any};
ghost use Rattle.cx_type_defs.specs.declared.kind.TypeRow.{TypeRow};
ghost use Rattle.cx_type_defs.specs.Tables.{Tables};
ghost use Rattle.cx_state.specs.declared.kind.Birth.TheVariants as Births;
ghost use Rattle.cx_state.specs.declared.kind.Phase.{Phase};
ghost use Rattle.cx_state.specs.Objects.{Object, Objects, Path};
ghost use Rattle.cx_state.specs.Places.{root_row};
ghost use Rattle.cx_state.specs.Conditions as on;
ghost use Rattle.cx_state.specs.Steps.{load};
ghost use Rattle.cx_slot_calls.specs.Rules.{advance_rule, load_of, reach_rule, store_rule};

/// Where an object isn't released and may be accessed, what is loaded at a path, and the rules that are broken there, are
/// those of what stands at the end of the path's steps in the object's tree ([basic.life], [class.union], [expr.const]).
pub fn accesses_are_those_of_trees()
    ensures load { (t : Tables) (os : Objects) (p : Path) (o : Object) → slice_get os p.object ≡ Some o → o.released ≡ false → p.past ≡ false → on.is_opaque o.birth ≡ false → load t os p ≡ load_of o.tree p.steps }
    ensures init { (t : Tables) (os : Objects) (p : Path) (o : Object) → slice_get os p.object ≡ Some o → o.released ≡ false → p.past ≡ false → o.birth ≡ Births.Here → on.broken t os p on.Init ≡ reach_rule o.tree p.steps }
    ensures activate { (t : Tables) (os : Objects) (p : Path) (o : Object) → slice_get os p.object ≡ Some o → o.released ≡ false → p.past ≡ false → o.birth ≡ Births.Here → on.broken t os p on.Activate ≡ reach_rule o.tree p.steps }
    ensures store { (t : Tables) (os : Objects) (p : Path) (o : Object) → slice_get os p.object ≡ Some o → o.released ≡ false → p.past ≡ false → o.birth ≡ Births.Here
        → on.broken t os p on.Store ≡ store_rule (list_any (λ (r : TypeRow). on.sealed t r o.tree p.steps) (on.listed (root_row t o))) o.tree p.steps }
    ensures advance { (t : Tables) (os : Objects) (p : Path) (o : Object) (to : Phase) → slice_get os p.object ≡ Some o → o.released ≡ false → p.past ≡ false → o.birth ≡ Births.Here → on.broken t os p (on.Advance to) ≡ advance_rule to o.tree p.steps }
{}
