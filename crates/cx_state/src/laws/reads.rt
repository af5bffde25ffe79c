//! What was written is read, and nothing that is read or asked outside of the place is changed ([basic.life], [expr.ass]).

ghost use Rattle.std.specs.Prelude.{◌≡◌, true, false, Some, Ok};
ghost use Rattle.cx_type_defs.specs.Tables.{Tables};
ghost use Rattle.cx_state.specs.declared.kind.Scalar.{Scalar};
ghost use Rattle.cx_state.specs.Objects.{Path, Tree, Leaf, Objects, at, put};
ghost use Rattle.cx_state.specs.Conditions.{Access, is_indeterminate, broken};
ghost use Rattle.cx_state.specs.Steps.{Write, write, init, store, load, active, dynamic_class};
ghost use Rattle.cx_state.specs.Elsewhere.{is_outside};

/// What was stored is read; after an initialization nothing else is.
pub fn written_is_read()
    ensures stored { (t : Tables) (os : Objects) (p : Path) (v : Scalar Path) (new : Objects) (x : Tree) → store t os p v ≡ Ok new → at os p ≡ Some x → is_indeterminate (Leaf v) ≡ false → load t new p ≡ Ok v }
    ensures initialized { (t : Tables) (os : Objects) (p : Path) (v w : Scalar Path) (new : Objects) (x : Tree) → init t os p v ≡ Ok new → at os p ≡ Some x → load t new p ≡ Ok w → w ≡ v }
    ensures others { (t : Tables) (os : Objects) (p q : Path) (v : Scalar Path) (new : Objects) → is_outside p q ≡ true → store t os p v ≡ Ok new → load t new q ≡ load t os q }
{}

/// A change of what a path leads to changes no answer at a path that leads neither there nor to a part of it: not the
/// rule of any access, nor the value, the active member or the most derived class that is found.
pub fn answers_outside_stay()
    ensures rule { (t : Tables) (f : Tree → Tree) (os : Objects) (p q : Path) (access : Access) → is_outside p q ≡ true → broken t (put f os p) q access ≡ broken t os q access }
    ensures value { (t : Tables) (f : Tree → Tree) (os : Objects) (p q : Path) → is_outside p q ≡ true → load t (put f os p) q ≡ load t os q }
    ensures member { (t : Tables) (f : Tree → Tree) (os : Objects) (p q : Path) → is_outside p q ≡ true → active t (put f os p) q ≡ active t os q }
    ensures class { (t : Tables) (f : Tree → Tree) (os : Objects) (p q : Path) → is_outside p q ≡ true → dynamic_class t (put f os p) q ≡ dynamic_class t os q }
{}

/// So each step that writes leaves the rules outside of its place as they are.
pub fn rules_outside_stay()
    ensures { (t : Tables) (os : Objects) (p : Path) (new : Objects) (q : Path) → is_outside p q ≡ true → (access : Access) (w : Write) → write t os p w ≡ Ok new → broken t new q access ≡ broken t os q access }
{}
