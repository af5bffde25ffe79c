//! Laws of descriptors and places, for what stands above: each is a function whose contract it is.

ghost use Rattle.std.specs.Prelude.{◌≡◌, ℕ, ◌<◌, ◌++◌, List, length, take, is_some, Result, Some};
ghost use Rattle.cx_base.specs.declared.rule.Rule.{Rule};
ghost use Rattle.cx_type_defs.specs.declared.ids.Step.{Step};
ghost use Rattle.cx_type_defs.specs.declared.ids.ClassId.{ClassId};
ghost use Rattle.cx_type_defs.specs.Tables.{Tables, Grows};
ghost use Rattle.cx_type_defs.specs.Sound.{Sound};
ghost use Rattle.cx_state.specs.Objects.{Object, Objects, Path};
ghost use Rattle.cx_state.specs.Places.{is_place};
ghost use Rattle.cx_state.specs.Conditions.{outer_in};
ghost use Rattle.cx_state.specs.Steps.{outer};
ghost use Rattle.cx_layout.specs.declared.columns.Descriptor.{Descriptor};
ghost use Rattle.cx_layout.specs.declared.place.Place.{Place};
ghost use Rattle.cx_layout.specs.Forms.{Form, PartsFull};
ghost use Rattle.cx_layout.specs.Places.{Leads, OneStep, nearest, outer_answer, place_at, place_of};
ghost use Rattle.cx_layout.specs.Paths.{Stands, Tells, SameAnswer, stepped};
ghost use Rattle.cx_layout.specs.TypeForms.{object_form};
ghost use Rattle.cx_layout.specs.Described.{AreOf, form_at};

/// Descriptors stay those of their types where the types grow.
pub fn descriptors_stay()
    ensures { (t u : Tables) → Grows t u → (ds : List Descriptor) → AreOf t ds → AreOf u ds }
{}

/// Descriptors that are cut back are still those of their types, and each one that is left says what it said, as it does
/// where others are added behind it.
pub fn descriptors_stay_when_cut()
    ensures cut { (t : Tables) (ds : List Descriptor) (n : ℕ) → AreOf t ds → AreOf t (take n ds) }
    ensures left { (ds : List Descriptor) (n k : ℕ) → k < n → form_at (take n ds) k ≡ form_at ds k }
    ensures added { (ds es : List Descriptor) (k : ℕ) → k < length ds → form_at (ds ++ es) k ≡ form_at ds k }
{}

/// Steps and mark lead to one place, and to each place lead one list of steps, where no part is an empty array. A place that
/// was found at the end of steps is one to which they lead.
pub fn places_and_steps_tell_each_other()
    ensures one_place { (f : Form) (ss : List Step) (p q : Place) → p.block ≡ q.block → p.past ≡ q.past → Leads f ss p → Leads f ss q → p ≡ q }
    ensures one_way { (f : Form) (ss us : List Step) (at : Place) → PartsFull f → Leads f ss at → Leads f us at → ss ≡ us }
    ensures found { (f : Form) (block : ℕ) (ss : List Step) (at : Place) → place_of f block ss ≡ Some at → Leads f ss at × (at.block ≡ block) }
{}

/// Where a form is that of an object's type, the nearest object of a class that encloses a place through bases is the one
/// that the definitions of objects name ([expr.static.cast]).
pub fn nearest_is_the_outer_object()
    ensures { (t : Tables) (o : Object) (f : Form) (c : ClassId) (ss : List Step) → Sound t → object_form t o.ty o.count ≡ Some f → nearest f c ss ≡ outer_in t o c ss }
{}

/// Where an object stands whose type has this form, its places are those of the definitions of objects, and what is
/// answered at a place for a member, a base, an element or an enclosing object is what those definitions answer at its path
/// ([expr.ref], [expr.sub], [expr.static.cast]).
pub fn steps_are_those_of_paths()
    ensures places { (t : Tables) (os : Objects) (f : Form) (p : Path) → Sound t → Stands t os p.object f → is_place t os p ≡ is_some (place_at f p.past p.steps) }
    ensures steps { (t : Tables) (os : Objects) (f : Form) (at : Place) (p : Path) (s : Step) (answer : Result Place Rule) → Sound t → Stands t os at.block f → Tells f at p → OneStep f at s answer → SameAnswer f answer (stepped t os p s) }
    ensures outer { (t : Tables) (os : Objects) (f : Form) (at : Place) (p : Path) (c : ClassId) → Sound t → Stands t os at.block f → Tells f at p → SameAnswer f (outer_answer f at c p.steps) (outer t os p c) }
{}
