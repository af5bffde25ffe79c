//! What is read is what its place may take, and types that come later change no object's cells ([conv.lval],
//! [basic.types]).

ghost use Rattle.std.specs.Prelude.{◌≡◌, true, Ok};
ghost use Rattle.cx_type_defs.specs.Tables.{Tables, Grows};
ghost use Rattle.cx_type_defs.specs.Questions.{is_complete};
ghost use Rattle.cx_state.specs.Objects.{Path, Object, Objects};
ghost use Rattle.cx_state.specs.Counts.{cells_in};
ghost use Rattle.cx_state.specs.Steps.{load};
ghost use Rattle.cx_state.specs.Forms.{Fit, Knows, KnowsIn};
ghost use Rattle.cx_store.specs.Stores.{MayTake};

use cx_state::Scalar;

/// What is read at a known place is known if it is a place, and the place's type may hold it.
pub fn reads_fit()
    ensures known { (t : Tables) (os : Objects) (p : Path) (v : Scalar Path) → Fit t os → Knows t os p → load t os p ≡ Ok v → KnowsIn t os v }
    ensures holds { (t : Tables) (os : Objects) (p : Path) (v : Scalar Path) → Fit t os → Knows t os p → load t os p ≡ Ok v → MayTake t os p v }
{}

/// An object of a complete type has as many cells where the types grow.
pub fn cells_stay()
    ensures { (t u : Tables) (o : Object) → Grows t u → is_complete t o.ty ≡ true → cells_in u o ≡ cells_in t o }
{}
