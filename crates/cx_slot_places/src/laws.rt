//! Laws of what is answered at places of one object, for what stands above: each is a function whose contract it is.

ghost use Rattle.std.specs.Prelude.{◌≡◌, ℕ, ◌==◌, ◌||◌, ◌&&◌, true, false, List, Some, Ok, Err, slice_get, option_map, if◌then◌else◌, ℤ, Result, unwrap_or};
ghost use Rattle.std.specs.List.{list_any};
ghost use Rattle.cx_base.specs.declared.rule.Rule.TheVariants as Rules;
ghost use Rattle.cx_type_defs.specs.declared.ids.Step.{Step};
ghost use Rattle.cx_type_defs.specs.declared.kind.TypeRow.{TypeRow};
ghost use Rattle.cx_type_defs.specs.Tables.{Tables};
ghost use Rattle.cx_type_defs.specs.Sound.{Sound};
ghost use Rattle.cx_state.specs.Objects.{Object, Objects, Path};
ghost use Rattle.cx_state.specs.Places.{root_row};
ghost use Rattle.cx_state.specs.Conditions as on;
ghost use Rattle.cx_state.specs.Steps as steps;
ghost use Rattle.cx_state.specs.Pointers as pointers;
ghost use Rattle.cx_state.specs.Pointers.{is_dangling};
ghost use Rattle.cx_layout.specs.Forms.{Form};
ghost use Rattle.cx_layout.specs.TypeForms.{object_form};
ghost use Rattle.cx_slot_places.specs.Lives.{IsFormOf, active_of, call_of, dynamic_of, placed};
ghost use Rattle.cx_slot_places.specs.Pointers.{HasForm, added, distance_of, equal_of, less_of};

/// What pointer calls answer for places of one object is what they answer by the form of its type ([expr.add], [expr.eq],
/// [expr.rel]).
pub fn pointers_are_those_of_forms()
    ensures add { (t : Tables) (os : Objects) (f : Form) (p : Path) (by : ℤ) → Sound t → HasForm t os p.object f → pointers.add t os p by ≡ (if is_dangling os p then Err Rules.Dangling else added f p by) }
    ensures distance { (os : Objects) (p q : Path) → pointers.distance os p q ≡ (if is_dangling os p || is_dangling os q then Err Rules.Dangling else distance_of p q) }
    ensures equal { (t : Tables) (os : Objects) (f : Form) (p q : Path) → Sound t → HasForm t os p.object f → p.object ≡ q.object → pointers.equal t os p q ≡ equal_of f p q }
    ensures less { (t : Tables) (os : Objects) (f : Form) (p q : Path) → Sound t → HasForm t os p.object f → p.object ≡ q.object → pointers.less t os p q ≡ (if is_dangling os p || is_dangling os q then Err Rules.Dangling else less_of f p q) }
{}

/// And what they answer for places of two objects ([expr.add], [expr.eq], [expr.rel]).
pub fn places_of_two_objects_are_apart()
    ensures distance { (os : Objects) (p q : Path) → (p.object == q.object) ≡ false → is_dangling os p ≡ false → is_dangling os q ≡ false → pointers.distance os p q ≡ Err Rules.PointerDistance }
    ensures equal { (t : Tables) (os : Objects) (p q : Path) → (p.object == q.object) ≡ false → pointers.equal t os p q ≡ (if p.past || q.past || (pointers.in_literal os p && pointers.in_literal os q) then Err Rules.UnspecifiedCompare else Ok false) }
    ensures less { (t : Tables) (os : Objects) (p q : Path) → (p.object == q.object) ≡ false → is_dangling os p ≡ false → is_dangling os q ≡ false → pointers.less t os p q ≡ Err Rules.UnspecifiedCompare }
{}

/// Where an object isn't released, what is answered at a place past no end by its tree is what the definitions of objects
/// answer ([basic.life], [class.union], [dcl.type.cv], [class.cdtor]); an opaque object is told no state.
pub fn answers_are_those_of_trees()
    ensures active { (t : Tables) (os : Objects) (p : Path) (o : Object) → slice_get os p.object ≡ Some o → o.released ≡ false → p.past ≡ false → on.is_opaque o.birth ≡ false → steps.active t os p ≡ active_of o.tree p.steps }
    ensures call { (t : Tables) (os : Objects) (p : Path) (o : Object) → slice_get os p.object ≡ Some o → o.released ≡ false → p.past ≡ false → steps.call_on t os p ≡ (if on.is_opaque o.birth then Ok tt else call_of o.tree p.steps) }
    ensures dynamic { (t : Tables) (os : Objects) (f : Form) (p : Path) (o : Object) → Sound t → slice_get os p.object ≡ Some o → object_form t o.ty o.count ≡ Some f → o.released ≡ false → p.past ≡ false → steps.dynamic_class t os p ≡ placed p (dynamic_of f (on.is_opaque o.birth) o.tree p.steps) }
    ensures sealed { (t : Tables) (o : Object) (r : TypeRow) (ss : List Step) → root_row t o ≡ Some r → list_any (λ (r : TypeRow). on.sealed t r o.tree ss) (on.listed (root_row t o)) ≡ on.sealed t r o.tree ss }
    ensures form { (t : Tables) (o : Object) (r : TypeRow) (f : Form) → Sound t → object_form t o.ty o.count ≡ Some f → root_row t o ≡ Some r → IsFormOf t r.kind f }
{}
