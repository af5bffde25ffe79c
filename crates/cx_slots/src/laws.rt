//! Laws of slots, for what stands above: each is a function whose contract it is.

ghost use Rattle.std.specs.Prelude.{◌≡◌, ℕ, true, List, ◌++◌, length, Option, Some};
ghost use Rattle.cx_type_defs.specs.declared.ids.Step.{Step};
ghost use Rattle.cx_type_defs.specs.declared.ids.TypeId.{TypeId};
ghost use Rattle.cx_type_defs.specs.Tables.{Tables};
ghost use Rattle.cx_type_defs.specs.Questions.{is_complete};
ghost use Rattle.cx_state.specs.declared.kind.Phase.{Phase};
ghost use Rattle.cx_state.specs.declared.kind.Phase.TheVariants as Phases;
ghost use Rattle.cx_state.specs.Objects.{Tree, below};
ghost use Rattle.cx_state.specs.Steps.{ended, new_tree};
ghost use Rattle.cx_state.specs.Counts.{whole_tree};
ghost use Rattle.cx_layout.specs.Forms.{Form, cells};
ghost use Rattle.cx_layout.specs.TypeForms.{object_form};
ghost use Rattle.cx_slots.specs.Slots.{Slot};
ghost use Rattle.cx_slots.specs.Flat.{Fits, Stands, flat, picture};
ghost use Rattle.cx_slots.specs.Fresh.{fresh};
ghost use Rattle.cx_slots.specs.Frames.{PathFrame};

/// The slots of a tree of a form are as many as the form's cells, and the tree is read from them, whatever follows. So
/// slots that are those of a tree stand for it and hold nothing besides.
pub fn slots_tell_their_tree()
    ensures many { (f : Form) (x : Tree) → Fits f x → length (flat f x) ≡ cells f }
    ensures told { (f : Form) (x : Tree) (more : List Slot) → Fits f x → picture f (flat f x ++ more) ≡ x }
    ensures stands { (f : Form) (x : Tree) (l : List Slot) → Fits f x → l ≡ flat f x → Stands f l × (picture f l ≡ x) }
{}

/// What stands at the end of steps has its slots together, from the part's cell on, and whatever it is changed to, the
/// slots in front of them and behind them stay. So it is with members of a union, which share slots, and with bases.
pub fn changes_stay_in_their_slots()
    ensures { (f : Form) (x : Tree) (ss : List Step) (y : Tree) → Fits f x → below x ss ≡ Some y → PathFrame f x ss y }
{}

/// A new tree has its form; what has ended is as a new tree in that phase; and a new tree of a type is that of its form.
pub fn new_trees_are_those_of_forms()
    ensures fits { (p : Phase) (f : Form) → Fits f (fresh p f) }
    ensures ended { (f : Form) (x : Tree) → Fits f x → ended x ≡ fresh Phases.Ended f }
    ensures of_type { (t : Tables) (p : Phase) (ty : TypeId) (count : Option ℕ) (f : Form) → is_complete t ty ≡ true → object_form t ty count ≡ Some f → whole_tree count (new_tree t p ty) ≡ fresh p f }
{}
